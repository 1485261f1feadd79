// Pairs of fields read on one cursor: what each answers, and the cursor after both, a line a pair, held to the file stdout. It is a caller of
// crates/field_calls, whose functions take the cursor lent.
#![tactic(auto)]

mod two;

use std::{fmt, io};
use tetra_core::bitbuffer::Cursor;
use tetra_core::refusal::Refusal;

const SAMPLE: [u8; 17] = [
    0x12, 0x34, 0x56, 0x78, 0x9a, 0xbc, 0xde, 0xf0, 0x11, 0x23, 0x45, 0x67, 0x89, 0xab, 0xcd, 0xef,
    0x5a,
];

// The bit at which the first field begins, and how many bits each has. A field that is refused leaves the cursor to the next.
const PAIRS: [(usize, usize, usize); 7] = [
    (3, 5, 8),
    (3, 64, 64),
    (72, 64, 1),
    (73, 64, 1),
    (73, 65, 63),
    (136, 0, 0),
    (137, 0, 0),
];

// A field's value in hexadecimal, or the number of its refusal's reason and the bit.
#[derive(Clone, Copy)]
struct Field(Result<u64, Refusal>);

impl fmt::Display for Field {
    fn fmt<W: fmt::Write>(&self, f: &mut fmt::Formatter<W>) -> fmt::Result {
        match self.0 {
            Ok(v) => write!(f, "{v:x}"),
            Err(r) => write!(f, "refused {} {}", r.reason.number(), r.offset),
        }
    }
}

// Reads n bits and then m from a bit of the sample on.
fn read_from(rt: &impl Print, pos: usize, n: usize, m: usize) -> io::Result<()> {
    let window = Cursor {
        start: 0,
        pos,
        end: 136,
    };
    let both = two::read_two(&SAMPLE, window, n, m);
    let (first, second) = (Field(both.first), Field(both.second));
    let c = both.cursor;
    println!(rt;
        "read_field {first} {second} <{} ^{} >{}",
        c.start, c.pos, c.end
    )
}

fn main(rt: HostRuntime) -> io::Result<()> {
    for (pos, n, m) in PAIRS {
        read_from(&rt, pos, n, m)?;
    }
    Ok(())
}
