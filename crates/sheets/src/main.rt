// Reads the files `stock`, `first` and `second` of the current folder, and prints how many states and marks the two normal forms have and whether the two transducers are equivalent (01: passes and marks of the clean sheets, and whether the two sew alike).
#![tactic(auto)]

ghost use Rattle.std.specs.Counts.{IsPrefixLen};

use report::report::report;
use std::fs::File;
use std::io::{self, Read};

// Reads the file at `path` into `area`, as far as the file goes and the area has room, and answers how many bytes came. One that is missing or cannot be read counts as empty.
fn read_file(rt: &HostRuntime, path: &str, area: &mut [u8]) -> usize
    ensures { IsPrefixLen result area.new }
{
    let Ok(mut file) = File::open(rt, path) else {
        return 0;
    };
    let mut done = 0;
    // Stays: a `while`, since a read may give fewer bytes than there are; std's `read_to_end` reads into what it allocates.
    while done < area.len() {
        match file.read(&mut area[done..]) {
            Ok(0) => return done,
            Ok(n) => done += n,
            Err(_) => return 0,
        }
    }
    done
}

// Each file is read into one byte more than the longest of its kind has. A longer one is cut there; it is still too long, and so refused by the same number as the whole, the alphabets by 2 and a transducer by 4.
// Stays: arrays of fixed size, since nothing is allocated, so that memory cannot run out.
fn main(rt: HostRuntime) -> io::Result<()> {
    let mut stock = [0u8; 83];
    let mut first = [0u8; 20_484];
    let mut second = [0u8; 20_484];
    let a = read_file(&rt, "stock", &mut stock);
    let b = read_file(&rt, "first", &mut first);
    let c = read_file(&rt, "second", &mut second);
    let mut area = [0u8; 36_911];
    match report(&stock[..a], &first[..b], &second[..c], &mut area) {
        Ok(n) => rt.write_all(&area[..n]),
        Err(_) => Ok(()),
    }
}
