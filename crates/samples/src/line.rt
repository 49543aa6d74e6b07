// The calls that a line of `stdin` can ask for, with its files and, behind its word, its numbers. Every byte of an area is 7 before.
//
//     stock: a stock                               design: a stock, a design
//     sheet, counts, marks, single: a stock, a sheet
//     place: a stock, a sheet, a design, a place
//     sewing AREA: a stock, a sheet, a design
//     cleaning AREA AREA SHOWN: a stock, a sheet; the first area is for the trimmed sheet, the other for the clean one
//     writing AREA SHOWN PASSES: a stock, counts, marks
//     pair AREA AREA: a stock, two sheets; the first area is for the design, the other for the place
//     joining AREA SHOWN: two stocks, two sheets
//     xml AREA SHOWN: a stock, a plan                plan AREA SHOWN: a stock, a text
//
// AREA is the length of an area, and SHOWN how many bytes of the first one are printed on a line of their own; none, if it is 0.
ghost use Rattle.std.specs.Prelude.{◌≤◌};

use crate::fault::Fault;
use crate::reader::{Names, Span, number};
use crate::{answer, calls};
use arrayvec::ArrayVec;
use formats::file::{transducer_counts, transducer_marks};

// The length of an area, or how many of its bytes are shown.
#[derive(Clone, Copy)]
struct Length {
    bytes: usize,
    ghost in_area: { bytes ≤ 20483 },
}

impl Length {
    fn read(s: &[u8]) -> Option<Length> {
        match number(s) {
            Some(bytes @ ..=20_483) => Some(Length { bytes }),
            _ => None,
        }
    }
}

#[derive(Clone, Copy)]
enum Call {
    Is,
    Stock,
    Design,
    Sheet,
    Counts,
    Marks,
    Single,
    Place,
    Sewing {
        area: Length,
    },
    Cleaning {
        trimmed: Length,
        clean: Length,
        shown: usize,
    },
    Writing {
        area: Length,
        shown: usize,
        passes: usize,
    },
    Pair {
        design: Length,
        place: Length,
    },
    Joining {
        area: Length,
        shown: usize,
    },
    Xml {
        area: Length,
        shown: usize,
    },
    Plan {
        area: Length,
        shown: usize,
    },
}

impl Call {
    // The call that these words are. Nothing is asked of the first word, nor of the last behind three numbers or none; behind one or
    // two numbers the last is read as a number too.
    fn of(words: &[&[u8]]) -> Option<Call> {
        match words {
            [_, b"is", _] => Some(Call::Is),
            [_, b"stock", _] => Some(Call::Stock),
            [_, b"design", _] => Some(Call::Design),
            [_, b"sheet", _] => Some(Call::Sheet),
            [_, b"counts", _] => Some(Call::Counts),
            [_, b"marks", _] => Some(Call::Marks),
            [_, b"single", _] => Some(Call::Single),
            [_, b"place", _] => Some(Call::Place),
            [_, b"sewing", area, last] => {
                Length::read(last)?;
                Some(Call::Sewing {
                    area: Length::read(area)?,
                })
            }
            [_, b"cleaning", trimmed, clean, shown, _] => Some(Call::Cleaning {
                trimmed: Length::read(trimmed)?,
                clean: Length::read(clean)?,
                shown: number(shown)?,
            }),
            [_, b"writing", area, shown, passes, _] => Some(Call::Writing {
                area: Length::read(area)?,
                shown: Length::read(shown)?.bytes,
                passes: number(passes)?,
            }),
            [_, word, first, second, last] => {
                number(last)?;
                Call::of_two(word, Length::read(first)?, Length::read(second)?)
            }
            _ => None,
        }
    }

    // The calls with two numbers.
    fn of_two(word: &[u8], first: Length, second: Length) -> Option<Call> {
        match word {
            b"pair" => Some(Call::Pair {
                design: first,
                place: second,
            }),
            b"joining" => Some(Call::Joining {
                area: first,
                shown: second.bytes,
            }),
            b"xml" => Some(Call::Xml {
                area: first,
                shown: second.bytes,
            }),
            b"plan" => Some(Call::Plan {
                area: first,
                shown: second.bytes,
            }),
            _ => None,
        }
    }

    fn read(s: &[u8]) -> Option<Call> {
        // No call has more words.
        let mut words: ArrayVec<&[u8], 6> = ArrayVec::new();
        words.extend(s.split(|b| *b == b' ')).ok()?;
        Call::of(&words)
    }
}

// The calls that are lent two areas.
fn answer_lent_two(rt: &impl Print, call: Call, files: &[&[u8]]) -> Result<(), Fault> {
    // Stays: arrays of fixed size, since nothing is allocated, so that memory cannot run out.
    let mut area1 = [7u8; 20_483];
    let mut area2 = [7u8; 20_483];
    match (call, files) {
        (
            Call::Cleaning {
                trimmed,
                clean,
                shown,
            },
            [stock, sheet],
        ) => {
            let trimmed = &mut area1[..trimmed.bytes];
            let clean = &mut area2[..clean.bytes];
            calls::cleaning(rt, stock, sheet, trimmed, clean, shown)?;
        }
        (Call::Pair { design, place }, [stock, first, second]) => {
            let design = &mut area1[..design.bytes];
            let place = &mut area2[..place.bytes];
            calls::pair(rt, stock, first, second, design, place)?;
        }
        _ => return Err(Fault::BadLine),
    }
    Ok(())
}

// The calls that are lent an area.
fn answer_lent(rt: &impl Print, call: Call, files: &[&[u8]]) -> Result<(), Fault> {
    // Stays: an array of fixed size, since nothing is allocated, so that memory cannot run out.
    let mut lent = [7u8; 20_483];
    match (call, files) {
        (Call::Sewing { area }, [stock, sheet, design]) => {
            calls::sewing(rt, stock, sheet, design, &mut lent[..area.bytes])?;
        }
        (
            Call::Writing {
                area,
                shown,
                passes,
            },
            [stock, counts, marks],
        ) => {
            let area = &mut lent[..area.bytes];
            calls::writing(rt, stock, counts, marks, passes, area, shown)?;
        }
        (Call::Joining { area, shown }, [first, second, sheet1, sheet2]) => {
            let area = &mut lent[..area.bytes];
            calls::joining(rt, first, second, sheet1, sheet2, area, shown)?;
        }
        (Call::Xml { area, shown }, [stock, plan]) => {
            calls::xml(rt, stock, plan, &mut lent[..area.bytes], shown)?;
        }
        (Call::Plan { area, shown }, [stock, text]) => {
            calls::plan(rt, stock, text, &mut lent[..area.bytes], shown)?;
        }
        _ => return Err(Fault::BadLine),
    }
    Ok(())
}

fn answer_call(rt: &impl Print, call: Call, files: &[&[u8]]) -> Result<(), Fault> {
    match (call, files) {
        (Call::Stock, [stock]) => calls::stock(rt, stock)?,
        (Call::Design, [stock, design]) => calls::design(rt, stock, design)?,
        (Call::Sheet, [stock, sheet]) => calls::sheet(rt, stock, sheet)?,
        (Call::Counts, [stock, sheet]) => answer::handed(rt, transducer_counts(stock, sheet))?,
        (Call::Marks, [stock, sheet]) => answer::handed(rt, transducer_marks(stock, sheet))?,
        (Call::Single, [stock, sheet]) => calls::single(rt, stock, sheet)?,
        (Call::Place, [stock, sheet, design, place]) => {
            calls::place(rt, stock, sheet, design, place)?
        }
        (Call::Cleaning { .. } | Call::Pair { .. }, _) => return answer_lent_two(rt, call, files),
        _ => return answer_lent(rt, call, files),
    }
    Ok(())
}

// The call and the files that stand behind the first bar of a line.
fn asked(s: &[u8], names: &mut Names) -> Result<(Call, ArrayVec<Span, 4>), Fault> {
    let mut parts = s.split(|b| *b == b'|');
    let call = Call::read(parts.next().unwrap_or(b"")).ok_or(Fault::BadLine)?;
    // No call has more files; they are counted before one is read.
    let mut texts: ArrayVec<&[u8], 4> = ArrayVec::new();
    texts.extend(parts).map_err(|_| Fault::BadLine)?;
    names.begin_line();
    let mut files = ArrayVec::new();
    for text in texts.as_slice() {
        files.push(names.add_file(text)?);
    }
    Ok((call, files))
}

fn bytes_of<'a>(files: &ArrayVec<Span, 4>, names: &'a Names) -> ArrayVec<&'a [u8], 4> {
    let mut bytes = ArrayVec::new();
    for file in files.as_slice() {
        bytes.push(names.bytes(*file));
    }
    bytes
}

// Reads a line and answers. One that names bytes prints nothing.
pub(crate) fn answer_line(rt: &impl Print, s: &[u8], names: &mut Names) -> Result<(), Fault> {
    if s.is_empty() || s.starts_with(b"#") {
        return Ok(());
    }
    let mut parts = s.splitn(2, |b| *b == b'|');
    let label = parts.next().unwrap_or(s);
    let asked = asked(parts.next().unwrap_or(b""), names);
    if let Ok((Call::Is, files)) = &asked
        && let [file] = files.as_slice()
    {
        return names.name(s[0], *file);
    }
    rt.write_all(label)?;
    let (call, files) = asked?;
    answer_call(rt, call, &bytes_of(&files, names))
}
