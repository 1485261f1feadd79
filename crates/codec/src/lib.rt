// What every header codec is made of: several fields by one read, several fields by one write, and the decisions that all calls share.
#![tactic(auto)]

pub mod cases;
pub mod encoded;
pub mod header;
pub mod piece;

ghost use Rattle.std.specs.Prelude.{◌≡◌, ◌+◌, ◌≤◌, ◌<◌, ltb, length};
ghost use Rattle.bits.specs.Bits.{digit};
ghost use Rattle.tetra_core.specs.Refusal.{refused_by, unless};
ghost use Rattle.tetra_core.specs.declared.refusal.Reason.TheVariants.{ReadPastEnd, WrongPduType};
ghost use Rattle.tetra_core.specs.BitBuffer.{moved};
ghost use Rattle.tetra_core.specs.Laws.Windows.{Good};
ghost use Rattle.codec.specs.Words.{short_at};
ghost use Rattle.codec.specs.Header.{within};
ghost use Rattle.codec.specs.Ahead.{Held, NextBits, Ready, advanced, ending_in};
ghost use Rattle.codec.specs.Write.{refusal_at};

use tetra_core::bitbuffer;
use tetra_core::bitbuffer::Cursor;
use tetra_core::refusal::{Reason, Refusal};

// The bits of a header from the offset at on: so many are left, and the first of them stand in a word, behind its used highest bits. Parts
// that take no more than what is there are read from this number, and no byte is loaded twice.
#[derive(Clone, Copy)]
pub struct Ahead {
    pub at: usize,
    pub left: usize,
    pub word: u64,
    pub used: usize,
}

impl Ahead {
    // The next n bits as a number.
    pub fn next_bits(self, n: usize) -> u64
        requires { Ready self n × (0 < n) }
        ensures { NextBits self n result }
    {
        bits::word::word_field(self.word, self.used, n)
    }

    // What is ahead n bits on.
    pub fn advance(self, n: usize) -> Ahead
        requires { Ready self n × (n ≤ self.left) }
        ensures { result ≡ advanced self n }
    {
        Ahead {
            at: self.at + n,
            left: self.left - n,
            used: self.used + n,
            ..self
        }
    }

    // The same of a header that ends left bits from here.
    pub fn ending_in(self, left: usize) -> Ahead
        ensures { result ≡ ending_in self left }
    {
        Ahead { left, ..self }
    }
}

// Loads what is ahead at the offset o of a header: 64 bits, or as many as the bytes have. Those behind the window are never looked at.
pub fn load(s: &[u8], c: Cursor, o: usize) -> Ahead
    requires { Good (length s.now) c }
    ensures { Held (within s.now c) result × Ready result 64 × (result.at ≡ o) }
{
    let size = c.end - c.pos;
    if size <= o {
        return Ahead {
            at: o,
            left: 0,
            word: 0,
            used: 0,
        };
    }
    Ahead {
        at: o,
        left: size - o,
        word: bits::word::get_ahead(s, c.pos + o),
        used: 0,
    }
}

// The refusal of one field, at the offset o, that does not end within the bits left.
pub fn field_past_end(o: usize) -> Refusal
    ensures { result ≡ record { reason = ReadPastEnd; offset = o } }
{
    Refusal {
        reason: Reason::ReadPastEnd,
        offset: o,
    }
}

// The refusal of a header that begins at the offset o, for its PDU type.
pub fn wrong_type(o: usize) -> Refusal
    ensures { result ≡ record { reason = WrongPduType; offset = o } }
{
    Refusal {
        reason: Reason::WrongPduType,
        offset: o,
    }
}

// Where the first of the fields of these widths starts that does not end within the bits left.
fn reach(widths: &[u8], left: usize) -> usize
    ensures { (result ≡ short_at widths.now left) × (result ≤ left) }
{
    let mut at = 0;
    for &width in widths {
        let n = usize::from(width);
        if left - at < n {
            return at;
        }
        at += n;
    }
    at
}

// The refusal of fields of these widths, from the offset o on, that do not end within the bits left.
pub fn fields_past_end(widths: &[u8], left: usize, o: usize) -> Refusal
    requires { o + left < 18446744073709551616 }
    ensures { result ≡ record { reason = ReadPastEnd; offset = o + short_at widths.now left } }
{
    Refusal {
        reason: Reason::ReadPastEnd,
        offset: o + reach(widths, left),
    }
}

// A flag as the bit that it is written as.
pub fn bit(b: bool) -> u64
    ensures { (result ≡ digit b) × (result < 2) }
{
    u64::from(b)
}

// Why a number that must be below a limit is not written, if so.
pub fn too_wide(v: u32, limit: u32) -> Result<(), Reason>
    ensures { refused_by result ≡ unless (ltb v limit) 3 }
{
    if v < limit {
        Ok(())
    } else {
        Err(Reason::ValueTooWide)
    }
}

// The cursor n bits on.
pub fn moved_by(c: Cursor, n: usize) -> Cursor
    requires { c.pos + n ≤ c.end }
    ensures { result ≡ moved c n }
{
    Cursor {
        pos: c.pos + n,
        ..c
    }
}

// Why size bits are not written at a cursor, if so. What they stand for may itself be refused, behind the window.
pub fn write_refusal(
    len: usize,
    c: Cursor,
    judged: Result<(), Reason>,
    size: usize,
) -> Result<(), Reason>
    ensures { refused_by result ≡ refusal_at len c (refused_by judged) size }
{
    if !bitbuffer::good_window(len, c) {
        return Err(Reason::BadWindow);
    }
    judged?;
    if c.end - c.pos < size {
        return Err(Reason::WritePastEnd);
    }
    Ok(())
}
