// Whether two transducers are equivalent (01: two sheets sew alike), and if not, an input tree and an address that show it.
ghost use Rattle.std.specs.Prelude.{◌≤◌, ◌<◌, length};
ghost use Rattle.transducer.specs.Inner.Machine.{Machine};
ghost use Rattle.comparison.specs.Answers.{Compares};
ghost use Rattle.witness.specs.Inner.Forms.{Comparable};
ghost use Rattle.comparison.specs.Inner.Verdicts.{ComparesForms, EarlyForm, ComparesWith, ComparesParts};

use earliest::earliest::form_of_parts;
use formats::file::{counts_end, read_transducer};
use pairs::pairs::{Pair, search};
use trees::alphabet::{input_ranks, output_ranks};
use trees::refusal::Refusal;
use witness::witness::{Shown, show};

// Compares two earliest forms.
fn compare_forms(
    ins: &[u8],
    outs: &[u8],
    starts1: &[u16],
    marks1: &[u8],
    n1: usize,
    starts2: &[u16],
    marks2: &[u8],
    n2: usize,
    tree: &mut [u8],
    address: &mut [u8],
) -> Result<Option<Shown>, Refusal>
    requires { Comparable ins.now outs.now starts1.now marks1.now n1 starts2.now marks2.now n2 × (1536 ≤ length tree.old) × (16128 ≤ length address.old) }
    ensures { ComparesForms ins.now outs.now starts1.now marks1.now n1 starts2.now marks2.now n2 tree.old tree.new address.old address.new result }
{
    let mut classes1 = [0u8; 128];
    let mut classes2 = [0u8; 128];
    let mut pairs = [Pair::default(); 256];
    match search(
        ins,
        starts1,
        marks1,
        starts2,
        marks2,
        &mut classes1[0..n1],
        &mut classes2[0..n2],
        &mut pairs,
    ) {
        Ok(()) => Ok(None),
        Err(clash) => {
            let shown = show(
                ins, outs, starts1, marks1, n1, starts2, marks2, n2, &pairs, clash, tree, address,
            );
            Ok(Some(shown))
        }
    }
}

// Compares an earliest form with that of the transducer whose n, counts and marks these are.
fn compare_with(
    stock: &[u8],
    starts1: &[u16],
    form1: &[u8],
    k1: usize,
    n2: usize,
    counts2: &[u8],
    marks2: &[u8],
    tree: &mut [u8],
    address: &mut [u8],
) -> Result<Option<Shown>, Refusal>
    requires { EarlyForm stock.now starts1.now form1.now k1 × Machine stock.now n2 counts2.now marks2.now × (1536 ≤ length tree.old) × (16128 ≤ length address.old) }
    ensures { ComparesWith stock.now starts1.now form1.now k1 n2 counts2.now marks2.now tree.old tree.new address.old address.new result }
{
    let mut starts2 = [0u16; 2050];
    let mut form2 = [0u8; 16384];
    let k2 = form_of_parts(stock, n2, counts2, marks2, &mut starts2, &mut form2).ok_or(
        Refusal::OverLimits,
    )?;
    compare_forms(
        input_ranks(stock),
        output_ranks(stock),
        starts1,
        form1,
        k1,
        &starts2,
        &form2,
        k2,
        tree,
        address,
    )
}

// Compares the earliest forms of the transducers whose n, counts and marks these are.
fn compare_parts(
    stock: &[u8],
    n1: usize,
    counts1: &[u8],
    marks1: &[u8],
    n2: usize,
    counts2: &[u8],
    marks2: &[u8],
    tree: &mut [u8],
    address: &mut [u8],
) -> Result<Option<Shown>, Refusal>
    requires { Machine stock.now n1 counts1.now marks1.now × Machine stock.now n2 counts2.now marks2.now × (1536 ≤ length tree.old) × (16128 ≤ length address.old) }
    ensures { ComparesParts stock.now n1 counts1.now marks1.now n2 counts2.now marks2.now tree.old tree.new address.old address.new result }
{
    let mut starts = [0u16; 2050];
    let mut form = [0u8; 16384];
    let k1 = form_of_parts(stock, n1, counts1, marks1, &mut starts, &mut form).ok_or(
        Refusal::OverLimits,
    )?;
    compare_with(
        stock, &starts, &form, k1, n2, counts2, marks2, tree, address,
    )
}

// Compares the transducers of two files: where they differ, `tree` begins with an input tree (01: design) and `address` with an address (01: place).
pub fn compare(
    stock: &[u8],
    first: &[u8],
    second: &[u8],
    tree: &mut [u8],
    address: &mut [u8],
) -> Result<Option<Shown>, Refusal>
    ensures { Compares stock.now first.now second.now tree.old tree.new address.old address.new result }
{
    if tree.len() < 1536 {
        return Err(Refusal::ShortArea);
    }
    if address.len() < 16128 {
        return Err(Refusal::ShortArea);
    }
    let n1 = read_transducer(stock, first)?;
    let n2 = read_transducer(stock, second)?;
    let from1 = counts_end(stock, n1);
    let from2 = counts_end(stock, n2);
    compare_parts(
        stock,
        n1,
        &first[1..from1],
        &first[from1..],
        n2,
        &second[1..from2],
        &second[from2..],
        tree,
        address,
    )
}
