// The field calls on a lent cursor, over the calls of bitbuffer.rt by value: "the cursor moves on by the bits of the field".
// Each is the call, a store and the answer, with no branch: what is refused, and where the cursor then stands, is said there alone.
#![tactic(auto)]

ghost use Rattle.std.specs.Prelude.{◌≡◌};
ghost use Rattle.tetra_core.specs.BitBuffer.{read_bits, peek_at, write_bits, written, copy_bits, copied};

use tetra_core::bitbuffer;
use tetra_core::bitbuffer::Cursor;
use tetra_core::refusal::{Reason, Refusal};

// Reads a field of num_bits bits, 64 at most.
pub fn read_field(s: &[u8], c: &mut Cursor, num_bits: usize) -> Result<u64, Refusal>
    ensures { (result ≡ (read_bits s.now c.old num_bits).answer)
        × (c.new ≡ (read_bits s.now c.old num_bits).cursor) }
{
    let done = bitbuffer::read_bits(s, *c, num_bits);
    *c = done.cursor;
    done.answer
}

// Reads one bit.
pub fn read_bit(s: &[u8], c: &mut Cursor) -> Result<u64, Refusal>
    ensures { (result ≡ (read_bits s.now c.old 1).answer)
        × (c.new ≡ (read_bits s.now c.old 1).cursor) }
{
    read_field(s, c, 1)
}

// Reads a field and leaves the cursor before it.
pub fn peek_field(s: &[u8], c: &mut Cursor, num_bits: usize) -> Result<u64, Refusal>
    ensures { (result ≡ (peek_at s.now c.old c.old.pos num_bits).answer)
        × (c.new ≡ (peek_at s.now c.old c.old.pos num_bits).cursor) }
{
    let done = bitbuffer::peek_bits(s, *c, num_bits);
    *c = done.cursor;
    done.answer
}

// Writes value as a field of num_bits bits, 64 at most.
pub fn write_field(s: &mut [u8], c: &mut Cursor, value: u64, num_bits: usize) -> Result<(), Reason>
    ensures { (result ≡ (write_bits s.old c.old value num_bits).answer)
        × (c.new ≡ (write_bits s.old c.old value num_bits).cursor)
        × (s.new ≡ written s.old c.old value num_bits) }
{
    let done = bitbuffer::write_bits(s, *c, value, num_bits);
    *c = done.cursor;
    done.answer
}

// Copies num_bits bits of s at its cursor c into t at its cursor d, and moves both on.
pub fn copy_bits(
    t: &mut [u8],
    d: &mut Cursor,
    s: &[u8],
    c: &mut Cursor,
    num_bits: usize,
) -> Result<(), Reason>
    ensures { (result ≡ (copy_bits t.old d.old s.now c.old num_bits).answer)
        × (d.new ≡ (copy_bits t.old d.old s.now c.old num_bits).cursor)
        × (c.new ≡ (copy_bits t.old d.old s.now c.old num_bits).source)
        × (t.new ≡ copied t.old d.old s.now c.old num_bits) }
{
    let done = bitbuffer::copy_bits(t, *d, s, *c, num_bits);
    *d = done.cursor;
    *c = done.source;
    done.answer
}
