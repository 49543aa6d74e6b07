// The body that a record tells.
ghost use Rattle.std.specs.Prelude.{◌+◌, ◌≤◌, ◌≡◌, length, take, drop};

use crate::book::Record;

// The body that a record tells, as a part of the area.
pub fn body_of(r: Record, area: &[u8]) -> &[u8]
    requires { r.start + r.size ≤ length area.now }
    ensures { result.now ≡ take r.size (drop r.start area.now) }
{
    &area[r.start..r.start + r.size]
}
