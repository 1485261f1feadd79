// The calls of the bit buffer: bits as one word.
ghost use Rattle.std.specs.Prelude.{◌≡◌, ◌≤◌, length};
ghost use Rattle.tetra_core.specs.BitBuffer.{read_bits, peek_bits_posoffset};
ghost use Rattle.tetra_mac.specs.Reply.{replied, wrote, window, refused_bit};
ghost use Rattle.tetra_mac.specs.Bits.{bits_reply, bits_read_reply, bits_write_reply};

use crate::record;
use tetra_core::bitbuffer;
use tetra_core::bitbuffer::{Cursor, Read};

// The reply to a read of bits.
fn bits_reply(out: &mut [u64], done: Read<u64>) -> u64
    requires { (2 ≤ length out.old) × (refused_bit done.answer ≤ 65536) }
    ensures { replied result out.new ≡ bits_reply out.old done.cursor.pos done.answer }
{
    let at = done.cursor.pos;
    match done.answer {
        Ok(v) => {
            let words = [v];
            record::give(out, at, &words)
        }
        Err(r) => record::deny(out, at, r),
    }
}

// Reads num_bits bits, 64 at most.
pub fn tetra_read_bits(
    s: &[u8],
    start: usize,
    pos: usize,
    end: usize,
    num_bits: usize,
    out: &mut [u64],
) -> u64
    ensures { replied result out.new ≡ bits_read_reply (read_bits s.now (window start pos end) num_bits) out.old }
{
    if out.len() < 2 {
        return record::MALFORMED;
    }
    let done = bitbuffer::read_bits(s, Cursor { start, pos, end }, num_bits);
    bits_reply(out, done)
}

// Reads num_bits bits so many bits from the cursor, before or behind it, and leaves it.
pub fn tetra_peek_bits_posoffset(
    s: &[u8],
    start: usize,
    pos: usize,
    end: usize,
    offset: isize,
    num_bits: usize,
    out: &mut [u64],
) -> u64
    ensures { replied result out.new ≡ bits_read_reply (peek_bits_posoffset s.now (window start pos end) offset num_bits) out.old }
{
    if out.len() < 2 {
        return record::MALFORMED;
    }
    let done = bitbuffer::peek_bits_posoffset(s, Cursor { start, pos, end }, offset, num_bits);
    bits_reply(out, done)
}

// Writes value in num_bits bits, 64 at most.
pub fn tetra_write_bits(
    s: &mut [u8],
    start: usize,
    pos: usize,
    end: usize,
    value: u64,
    num_bits: usize,
    out: &mut [u64],
) -> u64
    ensures { wrote result out.new s.new ≡ bits_write_reply s.old (window start pos end) value num_bits out.old }
{
    if out.len() < 1 {
        return record::MALFORMED;
    }
    let done = bitbuffer::write_bits(s, Cursor { start, pos, end }, value, num_bits);
    record::moved(out, done)
}
