// Bits of lent bytes through a window, most significant bit of byte 0 first. Takes the place of BitBuffer: the bytes are lent,
// and the cursor goes in by value and comes back in the answer.
ghost use Rattle.std.specs.Prelude.{◌≡◌, ◌+◌, ◌-◌, ◌*◌, ◌^◌, ◌≤◌, ◌<◌, true, false, length, ◌+ℤ◌, ltb};
ghost use Rattle.bits.specs.Bits.{bits_of_nat, put_bits};
ghost use Rattle.tetra_core.specs.Refusal.{number, refused_by};
ghost use Rattle.tetra_core.specs.BitBuffer.{good_window, read_refusal, read_bits, peek_at, peek_bits_posoffset, write_refusal, write_bits, written, at, place_of, signed, read_refused, bytes_after, moves, moved, window_count, changed, seek_rel, opened, write_run, run_written, copy_refusal, copy_bits, copied, into_slice_refusal, read_bits_into_slice, sliced_bits, room_refusal, to_bitarr, bitarr, bitvec_refusal, into_bitvec, bitvec, from_bitarr_refusal, copy_bits_from_bitarr, from_bitarr};

use crate::bitarr;
use crate::refusal::{Reason, Refusal};
use bits::{span, word};

// A window over a slice and the bit that it has reached. It is good where start <= pos <= end, and end is at most 65,536 and
// at most the bits of the slice.
#[derive(Clone, Copy)]
pub struct Cursor {
    pub start: usize,
    pub pos: usize,
    pub end: usize,
}

// What a read answers, and the cursor after it.
#[derive(Clone, Copy)]
pub struct Read<T> {
    pub cursor: Cursor,
    pub answer: Result<T, Refusal>,
}

// The cursor after a call that writes or moves.
#[derive(Clone, Copy)]
pub struct Moved {
    pub cursor: Cursor,
    pub answer: Result<(), Reason>,
}

// Both cursors after a copy.
#[derive(Clone, Copy)]
pub struct Copied {
    pub cursor: Cursor,
    pub source: Cursor,
    pub answer: Result<(), Reason>,
}

// Whether c is a good window on len bytes.
pub fn good_window(len: usize, c: Cursor) -> bool
    ensures { result ≡ good_window len c }
{
    if c.pos < c.start {
        return false;
    }
    if c.end < c.pos {
        return false;
    }
    if 65536 < c.end {
        return false;
    }
    if len < (c.end + 7) / 8 {
        return false;
    }
    true
}

// Why num_bits bits from the bit p on are not read, if so.
fn read_refusal(len: usize, c: Cursor, p: usize, num_bits: usize) -> Result<(), Reason>
    ensures { refused_by result ≡ read_refusal len c p num_bits }
{
    if !good_window(len, c) {
        return Err(Reason::BadWindow);
    }
    if 64 < num_bits {
        return Err(Reason::ReadPastEnd);
    }
    if p < c.start {
        return Err(Reason::ReadPastEnd);
    }
    if c.end < p {
        return Err(Reason::ReadPastEnd);
    }
    if c.end - p < num_bits {
        return Err(Reason::ReadPastEnd);
    }
    Ok(())
}

// Whether value is a number of num_bits bits.
fn value_fits(value: u64, num_bits: usize) -> bool
    requires { num_bits ≤ 64 }
    ensures { result ≡ ltb value (2 ^ num_bits) }
{
    if num_bits == 64 {
        return true;
    }
    value < 1u64 << num_bits
}

// Why value is not written in num_bits bits, if so.
fn write_refusal(len: usize, c: Cursor, value: u64, num_bits: usize) -> Result<(), Reason>
    ensures { refused_by result ≡ write_refusal len c value num_bits }
{
    if !good_window(len, c) {
        return Err(Reason::BadWindow);
    }
    if 64 < num_bits {
        return Err(Reason::WritePastEnd);
    }
    if !value_fits(value, num_bits) {
        return Err(Reason::ValueTooWide);
    }
    if c.end - c.pos < num_bits {
        return Err(Reason::WritePastEnd);
    }
    Ok(())
}

// The cursor at another bit.
fn moved_to(c: Cursor, p: usize) -> Cursor
    ensures { result ≡ at c p }
{
    Cursor { pos: p, ..c }
}

// The cursor n bits on, or where it was if what is judged refuses the call.
pub fn moved_unless(c: Cursor, judged: Result<(), Reason>, n: usize) -> Moved
    requires { refused_by judged ≡ 0 → c.pos + n ≤ 65536 }
    ensures { result ≡ moves (refused_by judged) c (moved c n) }
{
    match judged {
        Ok(()) => Moved {
            cursor: moved_to(c, c.pos + n),
            answer: Ok(()),
        },
        Err(reason) => Moved {
            cursor: c,
            answer: Err(reason),
        },
    }
}

// A read that is refused leaves the cursor.
fn refused(c: Cursor, reason: Reason) -> Read<u64>
    ensures { result ≡ read_refused c reason }
{
    Read {
        cursor: c,
        answer: Err(Refusal { reason, offset: 0 }),
    }
}

// Reads num_bits bits, 64 at most.
pub fn read_bits(s: &[u8], c: Cursor, num_bits: usize) -> Read<u64>
    ensures { result ≡ read_bits s.now c num_bits }
{
    let pos = c.pos;
    match read_refusal(s.len(), c, pos, num_bits) {
        Ok(()) => {
            let value = word::get_bits(s, pos, num_bits);
            Read {
                cursor: moved_to(c, pos + num_bits),
                answer: Ok(value),
            }
        }
        Err(reason) => refused(c, reason),
    }
}

// Reads one bit.
pub fn read_bit(s: &[u8], c: Cursor) -> Read<u64>
    ensures { result ≡ read_bits s.now c 1 }
{
    read_bits(s, c, 1)
}

// Reads num_bits bits from the bit p of the slice on and leaves the cursor.
fn peek_at(s: &[u8], c: Cursor, p: usize, num_bits: usize) -> Read<u64>
    ensures { result ≡ peek_at s.now c p num_bits }
{
    match read_refusal(s.len(), c, p, num_bits) {
        Ok(()) => {
            let value = word::get_bits(s, p, num_bits);
            Read {
                cursor: c,
                answer: Ok(value),
            }
        }
        Err(reason) => refused(c, reason),
    }
}

// Reads num_bits bits at the cursor and leaves it there.
pub fn peek_bits(s: &[u8], c: Cursor, num_bits: usize) -> Read<u64>
    ensures { result ≡ peek_at s.now c c.pos num_bits }
{
    let pos = c.pos;
    peek_at(s, c, pos, num_bits)
}

// The bit that is offset bits from pos.
fn place_of(pos: usize, offset: isize) -> Option<usize>
    requires { pos ≤ 65536 }
    ensures { result ≡ place_of (signed pos +ℤ offset) }
{
    if offset < 0 {
        // One more, so that the least isize has a magnitude too.
        let back = (-(offset + 1)) as usize;
        if pos <= back {
            return None;
        }
        return Some(pos - 1 - back);
    }
    Some(pos + offset as usize)
}

// Reads num_bits bits so many bits from the cursor, before or behind it, and leaves it.
pub fn peek_bits_posoffset(s: &[u8], c: Cursor, offset: isize, num_bits: usize) -> Read<u64>
    ensures { result ≡ peek_bits_posoffset s.now c offset num_bits }
{
    if !good_window(s.len(), c) {
        return refused(c, Reason::BadWindow);
    }
    let pos = c.pos;
    match place_of(pos, offset) {
        Some(p) => peek_at(s, c, p, num_bits),
        None => refused(c, Reason::ReadPastEnd),
    }
}

// Reads num_bits bits so many bits from the window's start, and leaves the cursor.
pub fn peek_bits_startoffset(s: &[u8], c: Cursor, offset: usize, num_bits: usize) -> Read<u64>
    ensures { result ≡ peek_at s.now c (c.start + offset) num_bits }
{
    if !good_window(s.len(), c) {
        return refused(c, Reason::BadWindow);
    }
    if c.end - c.start < offset {
        return refused(c, Reason::ReadPastEnd);
    }
    let p = c.start + offset;
    peek_at(s, c, p, num_bits)
}

// Why num_bits bits are not in the window from its cursor on, if so: it is not good, or, for the reason given, it has fewer.
fn room_refusal(len: usize, c: Cursor, num_bits: usize, reason: Reason) -> Result<(), Reason>
    ensures { refused_by result ≡ room_refusal (number reason) len c num_bits }
{
    if !good_window(len, c) {
        return Err(Reason::BadWindow);
    }
    if c.end - c.pos < num_bits {
        return Err(reason);
    }
    Ok(())
}

// Why num_bits bits are not read into room bytes, if so.
fn into_slice_refusal(len: usize, c: Cursor, num_bits: usize, room: usize) -> Result<(), Reason>
    ensures { refused_by result ≡ into_slice_refusal len c num_bits room }
{
    room_refusal(len, c, num_bits, Reason::ReadPastEnd)?;
    if room < (num_bits + 7) / 8 {
        return Err(Reason::WritePastEnd);
    }
    Ok(())
}

// Reads num_bits bits into the first bytes of buf, the last one filled up with zeros.
pub fn read_bits_into_slice(s: &[u8], c: Cursor, num_bits: usize, buf: &mut [u8]) -> Read<u64>
    ensures { (result ≡ read_bits_into_slice s.now c num_bits buf.old) × (buf.new ≡ sliced_bits s.now c num_bits buf.old) }
{
    match into_slice_refusal(s.len(), c, num_bits, buf.len()) {
        Ok(()) => {
            let pos = c.pos;
            bitarr::copy_octets(buf, s, pos, num_bits);
            Read {
                cursor: moved_to(c, pos + num_bits),
                answer: Ok(num_bits as u64),
            }
        }
        Err(reason) => refused(c, reason),
    }
}

// Reads a bit into each byte of buf, as 0 or 1.
pub fn to_bitarr(s: &[u8], c: Cursor, buf: &mut [u8]) -> Read<u64>
    ensures { (result ≡ to_bitarr s.now c buf.old) × (buf.new ≡ bitarr s.now c buf.old) }
{
    let n = buf.len();
    match room_refusal(s.len(), c, n, Reason::ReadPastEnd) {
        Ok(()) => {
            let pos = c.pos;
            bitarr::spread_all(buf, s, pos);
            Read {
                cursor: moved_to(c, pos + n),
                answer: Ok(n as u64),
            }
        }
        Err(reason) => refused(c, reason),
    }
}

// Why the window's bits are not read into room bytes, if so.
fn bitvec_refusal(len: usize, c: Cursor, room: usize) -> Result<(), Reason>
    ensures { refused_by result ≡ bitvec_refusal len c room }
{
    if !good_window(len, c) {
        return Err(Reason::BadWindow);
    }
    if room < c.end - c.start {
        return Err(Reason::WritePastEnd);
    }
    Ok(())
}

// The whole window, wherever its cursor is: each bit into a byte, as 0 or 1. Leaves the bytes of buf behind them.
pub fn into_bitvec(s: &[u8], c: Cursor, buf: &mut [u8]) -> Read<u64>
    ensures { (result ≡ into_bitvec s.now c buf.old) × (buf.new ≡ bitvec s.now c buf.old) }
{
    match bitvec_refusal(s.len(), c, buf.len()) {
        Ok(()) => {
            let start = c.start;
            let n = c.end - start;
            bitarr::spread_all(&mut buf[..n], s, start);
            Read {
                cursor: c,
                answer: Ok(n as u64),
            }
        }
        Err(reason) => refused(c, reason),
    }
}

// Puts value into num_bits bits at the cursor, or nothing if what is judged refuses the call.
fn put_unless(s: &mut [u8], c: Cursor, value: u64, num_bits: usize, judged: Result<(), Reason>)
    requires { refused_by judged ≡ 0 → (c.pos + num_bits ≤ 8 * length s.old) × (num_bits ≤ 64) × (c.pos ≤ 65536) × (value < 2 ^ num_bits) }
    ensures { s.new ≡ bytes_after (refused_by judged) s.old (put_bits s.old c.pos (bits_of_nat num_bits value)) }
{
    if judged.is_err() {
        return;
    }
    word::put_bits(s, c.pos, num_bits, value);
}

// Writes value in num_bits bits, 64 at most. One exit, so that the answer stays out of memory.
pub fn write_bits(s: &mut [u8], c: Cursor, value: u64, num_bits: usize) -> Moved
    ensures { (result ≡ write_bits s.old c value num_bits) × (s.new ≡ written s.old c value num_bits) }
{
    let judged = write_refusal(s.len(), c, value, num_bits);
    put_unless(s, c, value, num_bits, judged);
    moved_unless(c, judged, num_bits)
}

// Writes one bit: 0 or 1.
pub fn write_bit(s: &mut [u8], c: Cursor, value: u8) -> Moved
    ensures { (result ≡ write_bits s.old c value 1) × (s.new ≡ written s.old c value 1) }
{
    write_bits(s, c, value as u64, 1)
}

// Writes num_bits bits, all ones or all zeroes.
fn write_run(s: &mut [u8], c: Cursor, num_bits: usize, ones: bool) -> Moved
    ensures { (result ≡ write_run s.old c num_bits) × (s.new ≡ run_written ones s.old c num_bits) }
{
    match room_refusal(s.len(), c, num_bits, Reason::WritePastEnd) {
        Ok(()) => {
            let pos = c.pos;
            span::put_span(s, pos, num_bits, ones);
            Moved {
                cursor: moved_to(c, pos + num_bits),
                answer: Ok(()),
            }
        }
        Err(reason) => Moved {
            cursor: c,
            answer: Err(reason),
        },
    }
}

// Writes num_bits zeroes; more than 64 too, if the window has room for all.
pub fn write_zeroes(s: &mut [u8], c: Cursor, num_bits: usize) -> Moved
    ensures { (result ≡ write_run s.old c num_bits) × (s.new ≡ run_written false s.old c num_bits) }
{
    write_run(s, c, num_bits, false)
}

// Writes num_bits ones; more than 64 too, if the window has room for all.
pub fn write_ones(s: &mut [u8], c: Cursor, num_bits: usize) -> Moved
    ensures { (result ≡ write_run s.old c num_bits) × (s.new ≡ run_written true s.old c num_bits) }
{
    write_run(s, c, num_bits, true)
}

// Why num_bits bits at c are not copied to d, if so.
fn copy_refusal(
    t_len: usize,
    d: Cursor,
    s_len: usize,
    c: Cursor,
    num_bits: usize,
) -> Result<(), Reason>
    ensures { refused_by result ≡ copy_refusal t_len d s_len c num_bits }
{
    if !good_window(t_len, d) {
        return Err(Reason::BadWindow);
    }
    if !good_window(s_len, c) {
        return Err(Reason::BadWindow);
    }
    if c.end - c.pos < num_bits {
        return Err(Reason::ReadPastEnd);
    }
    if d.end - d.pos < num_bits {
        return Err(Reason::WritePastEnd);
    }
    Ok(())
}

// Copies num_bits bits of s at its cursor c into t at its cursor d.
pub fn copy_bits(t: &mut [u8], d: Cursor, s: &[u8], c: Cursor, num_bits: usize) -> Copied
    ensures { (result ≡ copy_bits t.old d s.now c num_bits) × (t.new ≡ copied t.old d s.now c num_bits) }
{
    match copy_refusal(t.len(), d, s.len(), c, num_bits) {
        Ok(()) => {
            let to = d.pos;
            let from = c.pos;
            span::copy_span(t, to, s, from, num_bits);
            Copied {
                cursor: moved_to(d, to + num_bits),
                source: moved_to(c, from + num_bits),
                answer: Ok(()),
            }
        }
        Err(reason) => Copied {
            cursor: d,
            source: c,
            answer: Err(reason),
        },
    }
}

// Why the bytes of buf are not written as bits, if so.
fn from_bitarr_refusal(len: usize, c: Cursor, buf: &[u8]) -> Result<(), Reason>
    ensures { refused_by result ≡ from_bitarr_refusal len c buf.now }
{
    if !good_window(len, c) {
        return Err(Reason::BadWindow);
    }
    if !bitarr::all_bits(buf) {
        return Err(Reason::ValueTooWide);
    }
    if c.end - c.pos < buf.len() {
        return Err(Reason::WritePastEnd);
    }
    Ok(())
}

// Writes each byte of buf, 0 or 1, as a bit. All are judged before the first is written.
pub fn copy_bits_from_bitarr(s: &mut [u8], c: Cursor, buf: &[u8]) -> Moved
    ensures { (result ≡ copy_bits_from_bitarr s.old c buf.now) × (s.new ≡ from_bitarr s.old c buf.now) }
{
    match from_bitarr_refusal(s.len(), c, buf) {
        Ok(()) => {
            let pos = c.pos;
            bitarr::gather_all(s, pos, buf);
            Moved {
                cursor: moved_to(c, pos + buf.len()),
                answer: Ok(()),
            }
        }
        Err(reason) => Moved {
            cursor: c,
            answer: Err(reason),
        },
    }
}

// The bits from a to b of a good window.
fn window_count(len: usize, c: Cursor, a: usize, b: usize) -> Result<u64, Refusal>
    ensures { result ≡ window_count len c (b - a) }
{
    if good_window(len, c) {
        if a < b {
            return Ok((b - a) as u64);
        }
        return Ok(0);
    }
    Err(Refusal {
        reason: Reason::BadWindow,
        offset: 0,
    })
}

// The bits of the window.
pub fn get_len(s: &[u8], c: Cursor) -> Result<u64, Refusal>
    ensures { result ≡ window_count (length s.now) c (c.end - c.start) }
{
    window_count(s.len(), c, c.start, c.end)
}

// The bits from the cursor to the window's end.
pub fn get_len_remaining(s: &[u8], c: Cursor) -> Result<u64, Refusal>
    ensures { result ≡ window_count (length s.now) c (c.end - c.pos) }
{
    window_count(s.len(), c, c.pos, c.end)
}

// The bits from the window's start to the cursor.
pub fn get_len_written(s: &[u8], c: Cursor) -> Result<u64, Refusal>
    ensures { result ≡ window_count (length s.now) c (c.pos - c.start) }
{
    window_count(s.len(), c, c.start, c.pos)
}

// The cursor's bit, counted from the window's start.
pub fn get_pos(s: &[u8], c: Cursor) -> Result<u64, Refusal>
    ensures { result ≡ window_count (length s.now) c (c.pos - c.start) }
{
    get_len_written(s, c)
}

// A window that is left as it is, because it or what it would become is not good.
fn unchanged(c: Cursor) -> Moved
    ensures { result ≡ moves 13 c c }
{
    Moved {
        cursor: c,
        answer: Err(Reason::BadWindow),
    }
}

// The window d in the place of c, where both are good.
fn change(len: usize, c: Cursor, d: Cursor) -> Moved
    ensures { result ≡ changed len c d }
{
    if !good_window(len, c) {
        return unchanged(c);
    }
    if !good_window(len, d) {
        return unchanged(c);
    }
    Moved {
        cursor: d,
        answer: Ok(()),
    }
}

// Moves the cursor to the bit offset, counted from the window's start.
pub fn seek(s: &[u8], c: Cursor, offset: usize) -> Moved
    ensures { result ≡ changed (length s.now) c (at c (c.start + offset)) }
{
    if 65536 < c.start {
        return unchanged(c);
    }
    if 65536 < offset {
        return unchanged(c);
    }
    change(s.len(), c, moved_to(c, c.start + offset))
}

// Moves the cursor by offset bits, on or back.
pub fn seek_rel(s: &[u8], c: Cursor, offset: isize) -> Moved
    ensures { result ≡ seek_rel (length s.now) c offset }
{
    let pos = c.pos;
    if 65536 < pos {
        return unchanged(c);
    }
    match place_of(pos, offset) {
        Some(p) => set_raw_pos(s, c, p),
        None => unchanged(c),
    }
}

// The window's first bit in the slice.
pub fn get_raw_start(c: Cursor) -> usize
    ensures { result ≡ c.start }
{
    c.start
}

// The bit of the slice after the window's last.
pub fn get_raw_end(c: Cursor) -> usize
    ensures { result ≡ c.end }
{
    c.end
}

// The cursor's bit in the slice.
pub fn get_raw_pos(c: Cursor) -> usize
    ensures { result ≡ c.pos }
{
    c.pos
}

// Moves the window's start.
pub fn set_raw_start(s: &[u8], c: Cursor, start: usize) -> Moved
    ensures { result ≡ changed (length s.now) c (record { start = start; pos = c.pos; end = c.end }) }
{
    change(s.len(), c, Cursor { start, ..c })
}

// Moves the window's end.
pub fn set_raw_end(s: &[u8], c: Cursor, end: usize) -> Moved
    ensures { result ≡ changed (length s.now) c (record { start = c.start; pos = c.pos; end = end }) }
{
    change(s.len(), c, Cursor { end, ..c })
}

// Moves the cursor to a bit of the slice.
pub fn set_raw_pos(s: &[u8], c: Cursor, pos: usize) -> Moved
    ensures { result ≡ changed (length s.now) c (at c pos) }
{
    change(s.len(), c, moved_to(c, pos))
}

// A window over the first len_bits bits of the slice, with its cursor at the first.
pub fn new(s: &[u8], len_bits: usize) -> Result<Cursor, Refusal>
    ensures { result ≡ opened (length s.now) len_bits }
{
    let c = Cursor {
        start: 0,
        pos: 0,
        end: len_bits,
    };
    if good_window(s.len(), c) {
        return Ok(c);
    }
    Err(Refusal {
        reason: Reason::BadWindow,
        offset: 0,
    })
}

// A window over the whole slice.
pub fn from_bytes(s: &[u8]) -> Result<Cursor, Refusal>
    ensures { result ≡ opened (length s.now) (8 * length s.now) }
{
    let len = s.len();
    if len <= 8192 {
        return new(s, 8 * len);
    }
    Err(Refusal {
        reason: Reason::BadWindow,
        offset: 0,
    })
}
