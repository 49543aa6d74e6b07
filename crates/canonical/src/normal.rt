// The normal form of the transducer of a file, as a file.
ghost use Rattle.std.specs.Prelude.{◌≤◌, ◌≡◌, length};
ghost use Rattle.canonical.specs.Answers.{NormalFile, Cleans};
ghost use Rattle.canonical.specs.Inner.Normal.{Reducible, Reduces, NormalOf, normal_whole};

use crate::quotient::merge;
use earliest::earliest::form_of_parts;
use earliest::kinds::{FormKind, form_of_file};
use forms::write::Form;
use merging::refining::settle_classes;
use trees::alphabet::{input_ranks, output_ranks};
use trees::refusal::Refusal;

// Makes equivalent states one, with a byte for each state in `old` and in `classes`.
fn reduce_by(
    ins: &[u8],
    outs: &[u8],
    starts: &[u16],
    marks: &[u8],
    old: &mut [u8],
    classes: &mut [u8],
    starts2: &mut [u16],
    out: &mut [u8],
) -> usize
    requires { Reducible ins.now outs.now starts.now marks.now (length old.old) × (length classes.old ≡ length old.old) × (2050 ≤ length starts2.old) × (length out.old ≡ 16384) }
    ensures { Reduces ins.now outs.now starts.now marks.now (length old.old) starts2.new out.new result }
{
    let mut least = [0u8; 128];
    let count = settle_classes(ins, starts, marks, old, classes, &mut least);
    merge(
        ins, outs, starts, marks, classes, &least, count, starts2, out,
    );
    count
}

// Makes equivalent states one: `starts2` says where the bodies of the quotient start in `out`; says how many states it has.
fn reduce(
    ins: &[u8],
    outs: &[u8],
    starts: &[u16],
    marks: &[u8],
    k: usize,
    starts2: &mut [u16],
    out: &mut [u8],
) -> usize
    requires { Reducible ins.now outs.now starts.now marks.now k × (2050 ≤ length starts2.old) × (length out.old ≡ 16384) }
    ensures { Reduces ins.now outs.now starts.now marks.now k starts2.new out.new result }
{
    let mut old = [0u8; 128];
    let mut classes = [0u8; 128];
    reduce_by(
        ins,
        outs,
        starts,
        marks,
        &mut old[0..k],
        &mut classes[0..k],
        starts2,
        out,
    )
}

// The normal form, as a kind of form.
struct Normal;

impl FormKind for Normal {
    ghost parts = { NormalOf };

    ghost file = { NormalFile };

    fn make(
        stock: &[u8],
        n: usize,
        counts: &[u8],
        marks: &[u8],
        starts: &mut [u16],
        out: &mut [u8],
    ) -> Option<usize> {
        let mut from = [0u16; 2050];
        let mut early = [0u8; 16384];
        let states = form_of_parts(stock, n, counts, marks, &mut from, &mut early)?;
        let ins = input_ranks(stock);
        let outs = output_ranks(stock);
        Some(reduce(ins, outs, &from, &early, states, starts, out))
    }

    ghost whole = { normal_whole };
}

// Writes the file of the normal form of the transducer of the file `sheet` (01: the clean sheet).
pub fn clean(stock: &[u8], sheet: &[u8], area: &mut [u8]) -> Result<Form, Refusal>
    ensures { Cleans stock.now sheet.now area.old area.new result }
{
    form_of_file::<Normal>(stock, sheet, area)
}
