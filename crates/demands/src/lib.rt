// The demands and requests of the functions themselves: calls of the entry points in a row, whose contracts say of them what `specs` says of whatever keeps the promises.
#![tactic(auto)]

ghost use Rattle.std.specs.Prelude.{◌≤◌, ◌≡◌, length};
ghost use Rattle.transducer.specs.Answers.{Translates};
ghost use Rattle.queries.specs.Answers.{FindsSymbol};
ghost use Rattle.xml.specs.Answers.{WritesXml};
ghost use Rattle.canonical.specs.Answers.{Cleans};
ghost use Rattle.join.specs.Answers.{Joins};
ghost use Rattle.comparison.specs.Answers.{Compares};
ghost use Rattle.demands.specs.Second.{ReadAndWritten, SewsAndAsks};
ghost use Rattle.demands.specs.Third.{Judges};
ghost use Rattle.demands.specs.Joining.{file_in, JoinsThree};
ghost use Rattle.demands.specs.Xml.{ReadsBack};

use canonical::normal::clean;
use comparison::compare::compare;
use formats::file::{read_transducer, transducer_counts, transducer_marks, write_transducer};
use forms::write::Form;
use join::join::join;
use queries::address::symbol_at;
use transducer::translate::translate;
use trees::refusal::Refusal;
use witness::witness::Shown;
use xml::read::read_xml;
use xml::write::write_xml;

// Demand 2: reads a file and writes it again.
pub fn read_and_write(stock: &[u8], sheet: &[u8], area: &mut [u8]) -> Result<usize, Refusal>
    ensures { ReadAndWritten stock.now sheet.now area.old area.new result }
{
    let n = read_transducer(stock, sheet)?;
    let counts = transducer_counts(stock, sheet);
    let marks = transducer_marks(stock, sheet);
    write_transducer(stock, n, counts, marks, area)
}

// What sewing and the place reader answer.
#[derive(Clone, Copy, Debug, PartialEq, Eq)]
pub struct Sewing {
    pub sewn: Result<usize, Refusal>,
    pub asked: Result<Option<usize>, Refusal>,
}

// Demand 2: sews a design, and asks for the block at a place of its plan.
pub fn sew_and_ask(
    stock: &[u8],
    sheet: &[u8],
    design: &[u8],
    address: &[u8],
    area: &mut [u8],
) -> Sewing
    ensures translates { Translates stock.now sheet.now design.now area.old area.new result.sewn }
    ensures finds_symbol { FindsSymbol stock.now sheet.now design.now address.now result.asked }
    ensures sews_and_asks { SewsAndAsks stock.now sheet.now design.now address.now area.old area.new result.sewn result.asked }
{
    let sewn = translate(stock, sheet, design, area);
    let asked = symbol_at(stock, sheet, design, address);
    Sewing { sewn, asked }
}

// What the three calls answer.
#[derive(Clone, Copy, Debug, PartialEq, Eq)]
pub struct Judgement {
    pub first: Result<Form, Refusal>,
    pub second: Result<Form, Refusal>,
    pub verdict: Result<Option<Shown>, Refusal>,
}

// Demand 3: cleans two sheets under one stock, each into its area, and compares them.
pub fn judge(
    stock: &[u8],
    first: &[u8],
    second: &[u8],
    area: &mut [u8],
    other: &mut [u8],
    tree: &mut [u8],
    address: &mut [u8],
) -> Judgement
    ensures cleans { Cleans stock.now first.now area.old area.new result.first }
    ensures cleans_2 { Cleans stock.now second.now other.old other.new result.second }
    ensures compares { Compares stock.now first.now second.now tree.old tree.new address.old address.new result.verdict }
    ensures judges { Judges stock.now first.now second.now (area.old, area.new) (other.old, other.new) (tree.old, tree.new) (address.old, address.new) result.first result.second result.verdict }
{
    let a = clean(stock, first, area);
    let b = clean(stock, second, other);
    let c = compare(stock, first, second, tree, address);
    Judgement {
        first: a,
        second: b,
        verdict: c,
    }
}

// What the writer of XML and the reader answer.
#[derive(Clone, Copy, Debug, PartialEq, Eq)]
pub struct ReadBack {
    pub written: Result<usize, Refusal>,
    pub read: Result<usize, Refusal>,
}

// Request F-4: writes a plan as XML, and reads it back.
pub fn write_and_read(stock: &[u8], plan: &[u8], text: &mut [u8], area: &mut [u8]) -> ReadBack
    ensures writes_xml { WritesXml stock.now plan.now text.old text.new result.written }
    ensures reads_back { ReadsBack stock.now plan.now text.old area.old area.new result.read }
{
    let written = write_xml(stock, plan, text);
    let read = match written {
        Ok(size) => read_xml(stock, &text[..size], area),
        Err(refusal) => Err(refusal),
    };
    ReadBack { written, read }
}

// The file that a call wrote to the start of this area; no byte, where it was refused.
fn file_in(r: Result<Form, Refusal>, area: &[u8]) -> &[u8]
    ensures { result.now ≡ file_in r area.now }
{
    match r {
        Ok(form) => &area[..form.bytes.min(area.len())],
        Err(_) => &[],
    }
}

// What four joinings of three sheets answer: the first with the second, and that with the third; the second with the third, and the first with that.
#[derive(Clone, Copy, Debug, PartialEq, Eq)]
pub struct BothWays {
    pub first: Result<Form, Refusal>,
    pub left: Result<Form, Refusal>,
    pub second: Result<Form, Refusal>,
    pub right: Result<Form, Refusal>,
}

// Request F-9: joins three sheets, under the stocks a, b and c, both ways; ab and bc are the stocks of the joined sheets between.
pub fn join_three(
    a: &[u8],
    b: &[u8],
    c: &[u8],
    ab: &[u8],
    bc: &[u8],
    s: &[u8],
    t: &[u8],
    u: &[u8],
    x: &mut [u8],
    y: &mut [u8],
    z: &mut [u8],
    w: &mut [u8],
) -> BothWays
    ensures joins { Joins a.now b.now s.now t.now x.old x.new result.first }
    ensures joins_2 { Joins ab.now c.now (file_in result.first x.new) u.now y.old y.new result.left }
    ensures joins_3 { Joins b.now c.now t.now u.now z.old z.new result.second }
    ensures joins_4 { Joins a.now bc.now s.now (file_in result.second z.new) w.old w.new result.right }
    ensures joins_three { JoinsThree a.now b.now c.now ab.now bc.now result.first result.left result.second result.right y.new w.new }
{
    let first = join(a, b, s, t, x);
    let left = join(ab, c, file_in(first, x), u, y);
    let second = join(b, c, t, u, z);
    let right = join(a, bc, s, file_in(second, z), w);
    BothWays {
        first,
        left,
        second,
        right,
    }
}
