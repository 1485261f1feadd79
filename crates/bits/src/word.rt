// Bits of a slice of bytes by whole bytes and words. The callers have decided that the bits are there; bit 0 is the most significant bit of byte 0.
ghost use Rattle.std.specs.Prelude.{◌≡◌, ◌+◌, ◌-◌, ◌*◌, ◌/◌, ◌%◌, ◌^◌, ◌≤◌, ◌<◌, min, length};
ghost use Rattle.bits.specs.Bits.{get_bits, put_bits, bits_of_nat, patch, Leading};

// 2 ^ k - 1
fn mask(k: usize) -> u64
    requires { k ≤ 8 }
    ensures { result ≡ 2 ^ k - 1 }
{
    (1u64 << k) - 1
}

// The byte b with the k low bits of v put above its m low bits.
fn byte_replaced(b: u8, k: usize, m: usize, v: u64) -> u8
    requires { k + m ≤ 8 }
    ensures { result ≡ patch b k m v }
{
    let wide = b as u64;
    let ones = mask(k);
    let old = wide & (ones << m);
    ((wide - old) + ((v & ones) << m)) as u8
}

// Eight bytes from at on as a number.
fn load8(s: &[u8], at: usize) -> u64
    requires { at + 8 ≤ length s.now }
    ensures { result ≡ get_bits s.now (8 * at) 64 }
{
    u64::from_be_bytes([
        s[at],
        s[at + 1],
        s[at + 2],
        s[at + 3],
        s[at + 4],
        s[at + 5],
        s[at + 6],
        s[at + 7],
    ])
}

// The n bits of x after its o high bits.
pub fn word_field(x: u64, o: usize, n: usize) -> u64
    requires { (o + n ≤ 64) × (0 < n) }
    ensures { result ≡ x / 2 ^ (64 - o - n) % 2 ^ n }
{
    (x << o) >> (64 - n)
}

// Where the eight bytes start in which the bit pos is: at its own byte, or the last eight.
fn word_start(len: usize, pos: usize) -> usize
    requires { 8 ≤ len }
    ensures { result ≡ min (pos / 8) (len - 8) }
{
    (pos / 8).min(len - 8)
}

// All bytes of a slice that is shorter than a word, as a number.
fn load_all(s: &[u8]) -> u64
    requires { length s.now < 8 }
    ensures { result ≡ get_bits s.now 0 (8 * length s.now) }
{
    s.iter().fold(0, |all, &b| (all << 8) | u64::from(b))
}

// The bits from pos on, from a word's highest bit down: 64 of them, or those to the end of s.
pub fn get_ahead(s: &[u8], pos: usize) -> u64
    requires { (pos < 8 * length s.now) × (pos ≤ 65536) }
    ensures { Leading s.now pos result }
{
    let len = s.len();
    if len < 8 {
        return load_all(s) << (64 - 8 * len + pos);
    }
    let at = word_start(len, pos);
    let o = pos - 8 * at;
    let x = load8(s, at) << o;
    if at + 8 < len {
        return x | (u64::from(s[at + 8]) >> (8 - o));
    }
    x
}

// The n bits of s from pos on, as a number.
pub fn get_bits(s: &[u8], pos: usize, n: usize) -> u64
    requires { (pos + n ≤ 8 * length s.now) × (n ≤ 64) × (pos ≤ 65536) }
    ensures { result ≡ get_bits s.now pos n }
{
    if n == 0 {
        return 0;
    }
    get_ahead(s, pos) >> (64 - n)
}

// The eight bytes of x put into s from at on.
fn store8(s: &mut [u8], at: usize, x: u64)
    requires { at + 8 ≤ length s.old }
    ensures { s.new ≡ put_bits s.old (8 * at) (bits_of_nat 64 x) }
{
    s[at..at + 8].copy_from_slice(&x.to_be_bytes());
}

// The word x with v in the place of the n bits after its o high bits.
fn word_replaced(x: u64, o: usize, n: usize, v: u64) -> u64
    requires { (o + n ≤ 64) × (0 < n) × (v < 2 ^ n) }
    ensures { result ≡ patch x n (64 - o - n) v }
{
    let m = 64 - o - n;
    let old = word_field(x, o, n);
    (x - (old << m)) + (v << m)
}

// The number v put into the n bits from bit o on of the eight bytes from at on.
fn put_in_word(s: &mut [u8], at: usize, o: usize, n: usize, v: u64)
    requires { (at + 8 ≤ length s.old) × (o + n ≤ 64) × (0 < n) × (v < 2 ^ n) }
    ensures { s.new ≡ put_bits s.old (8 * at + o) (bits_of_nat n v) }
{
    let x = load8(s, at);
    store8(s, at, word_replaced(x, o, n, v));
}

// The same where the bits end in the ninth byte.
fn put_nine(s: &mut [u8], at: usize, o: usize, n: usize, v: u64)
    requires { (at + 8 < length s.old) × (64 < o + n) × (o < 8) × (n ≤ 64) × (v < 2 ^ n) }
    ensures { s.new ≡ put_bits s.old (8 * at + o) (bits_of_nat n v) }
{
    let k = o + n - 64;
    put_in_word(s, at, o, 64 - o, v >> k);
    let b = s[at + 8];
    s[at + 8] = byte_replaced(b, k, 8 - k, v);
}

// The number v put into the n bits from pos on, which lie in one byte. A byte is sooner loaded and stored than a word of eight.
fn put_in_byte(s: &mut [u8], pos: usize, n: usize, v: u64)
    requires { (pos + n ≤ 8 * length s.old) × (pos % 8 + n ≤ 8) × (0 < n) }
    ensures { s.new ≡ put_bits s.old pos (bits_of_nat n v) }
{
    let at = pos / 8;
    let b = s[at];
    s[at] = byte_replaced(b, n, 8 - pos % 8 - n, v);
}

// All bytes of a slice that is shorter than a word, by the low bytes of x, the last byte first: a copy of so few bytes would call memcpy.
fn store_all(s: &mut [u8], x: u64)
    requires { length s.old < 8 }
    ensures { s.new ≡ put_bits s.old 0 (bits_of_nat (8 * length s.old) x) }
{
    let n = s.len();
    if n == 0 {
        return;
    }
    let (rest, last) = s.split_at_mut(n - 1);
    last[0] = (x % 256) as u8;
    store_all(rest, x / 256);
}

// The number v put into the n bits from pos on of a slice that is shorter than a word, by the bytes in which they lie. Copied into put_by_words it
// would make that slower for words.
#[inline(never)]
fn put_in_all(s: &mut [u8], pos: usize, n: usize, v: u64)
    requires { (length s.old < 8) × (pos + n ≤ 8 * length s.old) × (0 < n) × (v < 2 ^ n) }
    ensures { s.new ≡ put_bits s.old pos (bits_of_nat n v) }
{
    let at = pos / 8;
    let part = &mut s[at..(pos + n + 7) / 8];
    let x = load_all(part);
    let o = 64 - 8 * part.len() + pos % 8;
    store_all(part, word_replaced(x, o, n, v));
}

// The number v put into the n bits from pos on. It has many callers, and is too long to be copied into one of them.
#[inline(never)]
pub fn put_by_words(s: &mut [u8], pos: usize, n: usize, v: u64)
    requires { (pos + n ≤ 8 * length s.old) × (n ≤ 64) × (pos ≤ 65536) × (v < 2 ^ n) × (0 < n) }
    ensures { s.new ≡ put_bits s.old pos (bits_of_nat n v) }
{
    if s.len() < 8 {
        put_in_all(s, pos, n, v);
        return;
    }
    let at = word_start(s.len(), pos);
    let o = pos - 8 * at;
    if 64 < o + n {
        put_nine(s, at, o, n, v);
        return;
    }
    put_in_word(s, at, o, n, v);
}

// As put_by_words, also of no bits, and sooner done where they lie in one byte.
pub fn put_bits(s: &mut [u8], pos: usize, n: usize, v: u64)
    requires { (pos + n ≤ 8 * length s.old) × (n ≤ 64) × (pos ≤ 65536) × (v < 2 ^ n) }
    ensures { s.new ≡ put_bits s.old pos (bits_of_nat n v) }
{
    if n == 0 {
        return;
    }
    if pos % 8 + n <= 8 {
        put_in_byte(s, pos, n, v);
        return;
    }
    put_by_words(s, pos, n, v);
}
