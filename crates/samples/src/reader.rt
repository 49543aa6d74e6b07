// One line of the file `stdin`: what is printed before the answer, a call with its numbers, and the call's files:
//
//     T on 0 1, area 9: | sewing 9 | S | T | 0 1
//
// What stands before the first bar is printed as it is. `line.rt` lists the calls. A file is its bytes in decimal; a run of a byte is
// `511*0`, one of several bytes `2047*0,4`, and a capital letter stands for bytes that a line above has named, as in
// `T | is | 1 0 3 0 3 ..`. A line that is empty or starts with `#` is passed over. One that cannot be read answers `bad line`.
// So a new sample is a line of `stdin` and what it prints a line or two of `stdout`. All of `stdin` has at most 65,536 bytes.
ghost use Rattle.std.specs.Prelude.{◌≤◌};

use crate::fault::Fault;

// How many bytes all that were ever named and the files of a line may have together.
const ROOM: usize = 65_536;

// Where bytes stand in the store.
#[derive(Clone, Copy)]
pub(crate) struct Span {
    start: usize,
    end: usize,
    ghost ordered: { start ≤ end },
    ghost inside: { end ≤ 65536 },
}

impl Default for Span {
    fn default() -> Span {
        Span { start: 0, end: 0 }
    }
}

// The bytes that lines have named, and behind them those of the files of a line: `used` bytes, of which the first `kept` are named.
// Stays: an array with its length, since nothing is allocated, so that memory cannot run out.
#[derive(Drop)]
pub(crate) struct Names {
    store: [u8; ROOM],
    used: usize,
    kept: usize,
    letters: [Option<Span>; 26],
    ghost used_fit: { used ≤ 65536 },
    ghost kept_fit: { kept ≤ 65536 },
}

impl Names {
    pub(crate) fn new() -> Names {
        Names {
            store: [0; ROOM],
            used: 0,
            kept: 0,
            letters: [None; 26],
        }
    }

    // Names the line's file by a capital letter. What the letter stood for before still takes its room.
    pub(crate) fn name(&mut self, letter: u8, file: Span) -> Result<(), Fault> {
        if !letter.is_ascii_uppercase() {
            return Err(Fault::BadLine);
        }
        self.letters[usize::from(letter - b'A')] = Some(file);
        self.kept = self.used;
        Ok(())
    }

    // Gives back the room that the files of the last line took, but for what is named.
    pub(crate) fn begin_line(&mut self) {
        self.used = self.kept;
    }

    pub(crate) fn bytes(&self, span: Span) -> &[u8] {
        &self.store[span.start..span.end]
    }

    // Adds a byte, where there is room.
    fn add(&mut self, byte: u8) -> Result<(), Fault>
        ensures { self.old.used ≤ self.new.used }
    {
        if self.used == ROOM {
            return Err(Fault::BadLine);
        }
        self.store[self.used] = byte;
        self.used += 1;
        Ok(())
    }

    // Adds bytes that stand in the store, where there is room.
    fn add_span(&mut self, span: Span) -> Result<(), Fault>
        ensures { self.old.used ≤ self.new.used }
    {
        let n = span.end - span.start;
        if n > ROOM - self.used {
            return Err(Fault::BadLine);
        }
        self.store.copy_within(span.start..span.end, self.used);
        self.used += n;
        Ok(())
    }

    // Adds what stands from `start` on so many times more, where there is room.
    fn repeat(&mut self, start: usize, times: usize) -> Result<(), Fault>
        requires { start ≤ self.old.used }
        ensures { self.old.used ≤ self.new.used }
    {
        let used = self.used;
        let size = used - start;
        let Some(n) = size.checked_mul(times).filter(|n| *n <= ROOM - used) else {
            return Err(Fault::BadLine);
        };
        for k in used..used + n {
            self.store[k] = self.store[k - size];
        }
        self.used = used + n;
        Ok(())
    }

    // The bytes that a name stands for, if there are any.
    fn named(&self, s: &[u8]) -> Option<Span> {
        match s {
            [letter @ b'A'..=b'Z'] => {
                self.letters[usize::from(*letter - b'A')].filter(|span| span.start < span.end)
            }
            _ => None,
        }
    }

    // Adds a byte in decimal, or bytes that are named.
    fn add_item(&mut self, s: &[u8]) -> Result<(), Fault>
        ensures { self.old.used ≤ self.new.used }
    {
        if let Some(span) = self.named(s) {
            return self.add_span(span);
        }
        match number(s).map(u8::try_from) {
            Some(Ok(byte)) if !s.is_empty() => self.add(byte),
            _ => Err(Fault::BadLine),
        }
    }

    // Items with commas between them, and there may be one behind the last.
    fn add_items(&mut self, s: &[u8]) -> Result<(), Fault>
        ensures { self.old.used ≤ self.new.used }
    {
        for item in s.split_inclusive(|b| *b == b',') {
            self.add_item(item.strip_suffix(b",").unwrap_or(item))?;
        }
        Ok(())
    }

    // Items, and before them, if they stand there more than once, how often.
    fn add_run(&mut self, s: &[u8]) -> Result<(), Fault>
        ensures { self.old.used ≤ self.new.used }
    {
        let mut parts = s.splitn(2, |b| *b == b'*');
        let (Some(times), Some(items)) = (parts.next(), parts.next()) else {
            return self.add_items(s);
        };
        let Some(times @ 1..=ROOM) = number(times) else {
            return Err(Fault::BadLine);
        };
        let start = self.used;
        self.add_items(items)?;
        self.repeat(start, times - 1)
    }

    // Adds a file: runs with spaces between them.
    pub(crate) fn add_file(&mut self, s: &[u8]) -> Result<Span, Fault> {
        let start = self.used;
        for run in s.split(|b| *b == b' ') {
            self.add_run(run)?;
        }
        Ok(Span {
            start,
            end: self.used,
        })
    }
}

// A number in decimal, where nothing reads as 0; none for other text, and if it is too large. So is 2^64 - 2, but not 2^64 - 1.
pub(crate) fn number(s: &[u8]) -> Option<usize> {
    let mut n = 0usize;
    for b in s {
        let digit = char::from(*b).to_digit(10)?;
        n = n.checked_mul(10)?.checked_add(digit as usize)?;
    }
    (n != usize::MAX - 1).then_some(n)
}
