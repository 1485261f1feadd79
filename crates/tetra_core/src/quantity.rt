// A length in octets and a count of bits are two quantities. They are converted here and nowhere else.
ghost use Rattle.std.specs.Prelude.{◌≡◌, ◌*◌};
ghost use Rattle.tetra_core.specs.Quantity.{octet_count};

use crate::refusal::Reason;

// A length in octets, as total_len_bytes of the Rust.
#[derive(Clone, Copy)]
pub struct Octets(pub u8);

// A count of bits, as total_len of the Rust.
#[derive(Clone, Copy)]
pub struct Bits(pub u16);

// The octets that a number of bits takes up, and the bits short of them.
#[derive(Clone, Copy)]
pub struct OctetCount {
    pub octets: Octets,
    pub fill: Bits,
}

// The most octets that a length can say: 62 and 63 are marks.
pub const MOST_OCTETS: usize = 61;

// The bits of a number of octets.
pub fn octets_to_bits(n: Octets) -> Bits
    ensures { result.0 ≡ 8 * n.0 }
{
    Bits(8 * n.0 as u16)
}

// The octets that a number of bits takes up, rounded up, and the fill: the bits short of them.
pub fn count_octets(bits: usize) -> Result<OctetCount, Reason>
    ensures { result ≡ octet_count bits }
{
    if 8 * MOST_OCTETS < bits {
        return Err(Reason::Length);
    }
    let octets = (bits + 7) / 8;
    Ok(OctetCount {
        octets: Octets(octets as u8),
        fill: Bits((8 * octets - bits) as u16),
    })
}
