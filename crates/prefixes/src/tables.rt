// The tables of a transducer, which nothing here changes.
ghost use Rattle.std.specs.Prelude.{◌+◌, ◌*◌, ◌<◌, ◌≡◌, length, get_or};
ghost use Rattle.formats.specs.Inner.Layout.{body_number};

use trees::bytes::Span;

// The ranks of its symbols, where its right-hand sides start, and their marks; and the leaf whose right-hand sides are the first patterns.
#[derive(Clone, Copy)]
pub(crate) struct Tables<'a> {
    pub ins: &'a [u8],
    pub outs: &'a [u8],
    pub starts: &'a [u16],
    pub marks: &'a [u8],
    pub leaf: usize,
}

impl Tables<'_> {
    // The marks of the right-hand side of state q for symbol a.
    pub(crate) fn body(&self, q: usize, a: usize) -> Span
        requires { (body_number self.now.ins.now q a < 2049) × (body_number self.now.ins.now q a + 1 < length self.now.starts.now) }
        ensures { (result.from ≡ get_or self.now.starts.now (body_number self.now.ins.now q a) 0) × (result.to ≡ get_or self.now.starts.now (body_number self.now.ins.now q a + 1) 0) }
    {
        let b = 1 + q * self.ins.len() + a;
        Span {
            from: usize::from(self.starts[b]),
            to: usize::from(self.starts[b + 1]),
        }
    }
}
