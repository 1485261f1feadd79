// Longer spans of bits: 64 at a time, then those that are left. The callers have decided that the bits are there.
ghost use Rattle.std.specs.Prelude.{◌≡◌, ◌+◌, ◌*◌, ◌≤◌, length, replicate};
ghost use Rattle.bits.specs.Bits.{val, bits_at, put_bits};

use crate::word;

// 64 bits, all the same.
fn filled(ones: bool) -> u64
    ensures { result ≡ val (replicate 64 ones) }
{
    if ones { u64::MAX } else { 0 }
}

// n zeroes or ones put into s from pos on.
pub fn put_span(s: &mut [u8], pos: usize, n: usize, ones: bool)
    requires { (pos + n ≤ 8 * length s.old) × (pos + n ≤ 65536) }
    ensures { s.new ≡ put_bits s.old pos (replicate n ones) }
{
    let full = filled(ones);
    let words = n / 64;
    for i in 0..words {
        word::put_by_words(s, pos + 64 * i, 64, full);
    }
    let k = n % 64;
    if 0 < k {
        word::put_bits(s, pos + 64 * words, k, full >> (64 - k));
    }
}

// The n bits of s from spos on put into t from tpos on.
pub fn copy_span(t: &mut [u8], tpos: usize, s: &[u8], spos: usize, n: usize)
    requires { (tpos + n ≤ 8 * length t.old) × (spos + n ≤ 8 * length s.now) × (tpos + n ≤ 65536) × (spos + n ≤ 65536) }
    ensures { t.new ≡ put_bits t.old tpos (bits_at s.now spos n) }
{
    let words = n / 64;
    for i in 0..words {
        let x = word::get_bits(s, spos + 64 * i, 64);
        word::put_by_words(t, tpos + 64 * i, 64, x);
    }
    let k = n % 64;
    let rest = word::get_bits(s, spos + 64 * words, k);
    word::put_bits(t, tpos + 64 * words, k, rest);
}
