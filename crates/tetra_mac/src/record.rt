// What every call shares: its status, the words that it puts into out, the calls that read and write a header's record, and a record's numbers
// behind a flag or cut down to the type of their field.
ghost use Rattle.std.specs.Prelude.{ℕ, List, Bool, true, ◌≡◌, ◌+◌, ◌≤◌, ◌<◌, min, length};
ghost use Rattle.std.proofs.lemmas.List.Edits.{sets};
ghost use Rattle.codec.specs.Header.{at_cursor};
ghost use Rattle.codec.specs.Write.{write_at, written_at};
ghost use Rattle.tetra_mac.specs.Reply.{replied, wrote, status_of, given_reply, denied_reply, moved_reply, bits_counted, header_read_reply, write_reply, value_if, number_if};
ghost use Rattle.tetra_mac.specs.Laws.Placed.{Placed};

use codec::encoded::Encode;
use codec::header::Header;
use codec::{encoded, header};
use tetra_core::bitbuffer::{Cursor, Moved};
use tetra_core::quantity::Bits;
use tetra_core::refusal::{Reason, Refusal};

// The status of a call whose record or out is too short, or whose record has a code that no case has.
pub const MALFORMED: u64 = 255;

// Puts words into out from the index at on.
pub fn put_words(out: &mut [u64], at: usize, words: &[u64])
    requires { at + length words.now ≤ length out.old }
    ensures { out.new ≡ sets out.old at words.now }
{
    for (i, &word) in words.iter().enumerate() {
        out[at + i] = word;
    }
}

// Puts the cursor's bit and the words that were read into out.
pub(crate) fn give(out: &mut [u64], at: usize, words: &[u64]) -> u64
    requires { length words.now < length out.old }
    ensures { replied result out.new ≡ given_reply out.old at words.now }
{
    out[0] = at as u64;
    put_words(out, 1, words);
    0
}

// The status of a refused read: its number, and its bit behind the eight bits of the number.
pub fn status(r: Refusal) -> u64
    requires { r.offset ≤ 65536 }
    ensures { result ≡ status_of r }
{
    r.reason.number() as u64 + 256 * r.offset as u64
}

// Puts the cursor's bit into out: the status of a refused read.
pub fn deny(out: &mut [u64], at: usize, r: Refusal) -> u64
    requires { (0 < length out.old) × (r.offset ≤ 65536) }
    ensures { replied result out.new ≡ denied_reply out.old at r }
{
    out[0] = at as u64;
    status(r)
}

// Puts the cursor's bit into out: the status of a call that writes.
pub fn moved(out: &mut [u64], m: Moved) -> u64
    requires { 0 < length out.old }
    ensures { replied result out.new ≡ moved_reply out.old m }
{
    out[0] = m.cursor.pos as u64;
    match m.answer {
        Ok(()) => 0,
        Err(reason) => reason.number() as u64,
    }
}

// Puts a number of bits into out: the status of a call that counts them.
pub fn counted(out: &mut [u64], bits: Result<Bits, Reason>) -> u64
    requires { 0 < length out.old }
    ensures { replied result out.new ≡ bits_counted out.old bits }
{
    match bits {
        Ok(n) => {
            out[0] = n.0 as u64;
            0
        }
        Err(reason) => reason.number() as u64,
    }
}

// A header that crosses as a record of N words.
pub trait Record<const N: usize>: Header + Encode {
    ghost words_of: { Self → List ℕ };

    ghost known: { List ℕ → Bool };

    ghost value: { List ℕ → Self };

    // The words of a header.
    fn words(h: Self) -> [u64; N]
        ensures { result ≡ words_of h };

    // Whether words are long enough and have no unknown code.
    fn known(words: &[u64]) -> bool
        ensures { result ≡ known words.now };

    // The header of words whose codes are known.
    fn value(words: &[u64]) -> Self
        requires { N ≤ length words.now }
        ensures { result ≡ value words.now };

    ghost long: { (ws : List ℕ) → known ws ≡ true → N ≤ length ws };

    // a refused field begins inside the window, so its bit fits a status
    ghost placed: { Placed 0 Self.reader };
}

// Reads a header at the cursor, and gives the cursor's bit and the header's words.
pub(crate) fn read<const N: usize, T: Record<N>>(s: &[u8], c: Cursor, out: &mut [u64]) -> u64
    ensures { replied result out.new ≡ header_read_reply T.words_of (N + 1) (at_cursor T.reader s.now c) out.old }
{
    if out.len() <= N {
        return MALFORMED;
    }
    let done = header::from_bitbuf::<T>(s, c);
    let at = done.cursor.pos;
    match done.answer {
        Ok(h) => {
            let words = T::words(h);
            give(out, at, &words)
        }
        Err(r) => deny(out, at, r),
    }
}

// Writes the header of a record at the cursor, and gives the cursor's bit.
pub(crate) fn write<const N: usize, T: Record<N>>(
    s: &mut [u8],
    c: Cursor,
    words: &[u64],
    out: &mut [u64],
) -> u64
    ensures { wrote result out.new s.new ≡ write_reply (λ h. write_at s.old c (T.refused h) (T.bits h)) (λ h. written_at s.old c (T.refused h) (T.bits h)) s.old (value_if (T.known words.now) (T.value words.now)) out.old }
{
    if out.len() < 1 {
        return MALFORMED;
    }
    if !T::known(words) {
        return MALFORMED;
    }
    let h = T::value(words);
    let done = encoded::to_bitbuf(s, c, h);
    moved(out, done)
}

// A number that may not be there, behind its flag.
pub fn number_if(present: u64, v: u8) -> Option<u8>
    ensures { result ≡ number_if present v }
{
    if present == 0 {
        return None;
    }
    Some(v)
}

// A number for a field of type u8: one too large becomes the largest, which a codec refuses.
pub fn number8(v: u64) -> u8
    ensures { result ≡ min v 255 }
{
    v.min(255) as u8
}

// The same for a field of type u16.
pub(crate) fn number16(v: u64) -> u16
    ensures { result ≡ min v 65535 }
{
    v.min(65535) as u16
}

// The same for a field of type u32.
pub(crate) fn number32(v: u64) -> u32
    ensures { result ≡ min v 4294967295 }
{
    v.min(4294967295) as u32
}
