// Where a PDU of a block ends, by the bits left, the type, the length and the address type alone.
ghost use Rattle.std.specs.Prelude.{◌≡◌, List, Bool, drop};
ghost use Rattle.codec.specs.Ahead.{Held, Ready};
ghost use Rattle.block_rules.specs.Numbers.{least_bits};
ghost use Rattle.block_rules.specs.Extent.{counted_extent, extent_of, extent};

use block_rules::LEAST_BITS;
use block_rules::extent::Extent;
use codec::Ahead;
use mac_resource::mac_resource::MAC_RESOURCE_LENGTH_2ND_SLOT_STOLEN;
use tetra_core::quantity;
use tetra_core::quantity::Octets;
use tetra_core::refusal::{Reason, Refusal};

// The least length in octets that a PDU can have.
const LEAST_OCTETS: u8 = 2;

// The place of the length in a PDU.
const LENGTH_AT: usize = 7;

// How many of the first 16 bits stand behind the type, of 2 bits, and behind the length, of 6. The last 3 are the address type.
const BEHIND_TYPE: u64 = 14;

const BEHIND_LENGTH: u64 = 3;

// The PDU of so many octets, whose length field begins at offset.
fn counted_extent(left: usize, length: Octets, offset: usize) -> Extent
    ensures { result ≡ counted_extent left length.0 offset }
{
    let refusal = Refusal {
        reason: Reason::Length,
        offset,
    };
    if length.0 < LEAST_OCTETS {
        return Extent::Unsized(refusal);
    }
    let bits = quantity::octets_to_bits(length).0 as usize;
    if bits <= left {
        return Extent::Sized(bits);
    }
    if bits - left < 8 {
        return Extent::Sized(left);
    }
    Extent::Unsized(refusal)
}

// What begins where left bits are left to the block's end.
fn extent_of(left: usize, pdu_type: u8, length: u8, address_type: u8) -> Extent
    ensures { result ≡ extent_of left pdu_type length address_type }
{
    if left < LEAST_BITS {
        return Extent::End;
    }
    if pdu_type != 0 {
        return Extent::Unsized(codec::wrong_type(0));
    }
    if address_type == 0 {
        return Extent::Null(length);
    }
    // This mark and the one above it: the PDU ends with the block.
    if MAC_RESOURCE_LENGTH_2ND_SLOT_STOLEN <= length {
        return Extent::Sized(left);
    }
    counted_extent(left, Octets(length), LENGTH_AT)
}

// What begins with the bits ahead, of which left are left to the block's end.
pub(crate) fn extent_at(a: Ahead, left: usize) -> Extent
    requires { Ready a least_bits × (a.left ≡ left) }
    ensures { (h : List Bool) → Held h a → result ≡ extent (drop a.at h) }
{
    if left < LEAST_BITS {
        return Extent::End;
    }
    let x = a.next_bits(LEAST_BITS);
    let pdu_type = ((x >> BEHIND_TYPE) % 4) as u8;
    let length = ((x >> BEHIND_LENGTH) % 64) as u8;
    let address_type = (x % 8) as u8;
    extent_of(left, pdu_type, length, address_type)
}
