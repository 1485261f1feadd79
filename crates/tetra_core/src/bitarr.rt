// Bits one to a byte, and bits as whole bytes.
ghost use Rattle.std.specs.Prelude.{◌≡◌, ◌++◌, map, false, ◌+◌, ◌*◌, ◌≤◌, length, replicate};
ghost use Rattle.bits.specs.Bits.{digit, odd, val, bits_at, bits_of_nat, put_bits};
ghost use Rattle.tetra_core.specs.Quantity.{octets_of, fill_of};
ghost use Rattle.tetra_core.specs.BitBuffer.{are_bits};

use bits::{span, word};

// The n bits of s from pos on, put into buf from its bit 0 on, and zeros behind them up to the end of the last byte.
pub(crate) fn copy_octets(buf: &mut [u8], s: &[u8], pos: usize, n: usize)
    requires { (pos + n ≤ 8 * length s.now) × (octets_of n ≤ length buf.old) × (pos + n ≤ 65536) }
    ensures { buf.new ≡ put_bits buf.old 0 (bits_at s.now pos n ++ replicate (fill_of n) false) }
{
    span::copy_span(buf, 0, s, pos, n);
    span::put_span(buf, n, 8 * ((n + 7) / 8) - n, false);
}

// The low bits of x, one to each byte of buf.
fn spread(buf: &mut [u8], x: u64)
    requires { length buf.old ≤ 64 }
    ensures { buf.new ≡ map digit (bits_of_nat (length buf.old) x) }
{
    let n = buf.len();
    for (i, b) in buf.iter_mut().enumerate() {
        *b = ((x >> (n - 1 - i)) % 2) as u8;
    }
}

// The bits of s from pos on, one to each byte of buf.
pub(crate) fn spread_all(buf: &mut [u8], s: &[u8], pos: usize)
    requires { (pos + length buf.old ≤ 8 * length s.now) × (pos + length buf.old ≤ 65536) }
    ensures { buf.new ≡ map digit (bits_at s.now pos (length buf.old)) }
{
    if buf.is_empty() {
        return;
    }
    let k = buf.len().min(64);
    let (first, rest) = buf.split_at_mut(k);
    spread(first, word::get_bits(s, pos, k));
    spread_all(rest, s, pos + k);
}

// Whether each byte is 0 or 1.
pub fn all_bits(buf: &[u8]) -> bool
    ensures { result ≡ are_bits buf.now }
{
    buf.iter().all(|&b| b < 2)
}

// The low bits of some bytes, as a number.
fn gather(bytes: &[u8]) -> u64
    requires { length bytes.now ≤ 64 }
    ensures { result ≡ val (map odd bytes.now) }
{
    bytes
        .iter()
        .fold(0, |acc, &b| (acc << 1) | u64::from(b % 2))
}

// The low bits of the bytes of buf, put into s from pos on.
pub(crate) fn gather_all(s: &mut [u8], pos: usize, buf: &[u8])
    requires { (pos + length buf.now ≤ 8 * length s.old) × (pos + length buf.now ≤ 65536) }
    ensures { s.new ≡ put_bits s.old pos (map odd buf.now) }
{
    let mut at = pos;
    for chunk in buf.chunks(64) {
        word::put_bits(s, at, chunk.len(), gather(chunk));
        at += chunk.len();
    }
}
