// The address of a MAC-ACCESS or MAC-DATA, clauses 21.4.2.1 and 21.4.2.3: SSI, USSI and SMI have 24 bits, an event label 10.
ghost use Rattle.std.specs.Prelude.{◌≡◌, ◌^◌, ◌≤◌, ◌<◌};
ghost use Rattle.tetra_core.specs.Refusal.{refused_by};
ghost use Rattle.codec.specs.Ahead.{Ready, ReadsNext};
ghost use Rattle.tetra_fields.specs.UplinkAddress.{uplink_most, uplink_width, uplink_of, uplink_number, uplink_type_number, read_uplink_address, uplink_address_refusal, encryption_refusal};

use crate::enums::uplink_addr_type::UplinkAddrType;
use codec::Ahead;
use tetra_core::address::{SsiType, UplinkAddress};
use tetra_core::refusal::{Reason, Refusal};

// The bits of an event label.
const LABEL_BITS: usize = 10;

// The bits of an SSI, USSI or SMI.
const NUMBER_BITS: usize = 24;

// The bits of an address of this type.
pub fn uplink_width(kind: u64) -> usize
    ensures { (result ≡ uplink_width kind) × (0 < result) × (result ≤ uplink_most) }
{
    if kind == 1 { LABEL_BITS } else { NUMBER_BITS }
}

// The address of this type with the number v.
#[tactic(auto, unfolding(crate::specs::UplinkAddress::uplink_of, crate::specs::UplinkAddress::uplink_width))]
fn uplink_of(t: UplinkAddrType, v: u64) -> UplinkAddress
    requires { v < 2 ^ uplink_width (uplink_type_number t) }
    ensures { result ≡ uplink_of (uplink_type_number t) v }
{
    match t {
        UplinkAddrType::Ssi => UplinkAddress::Ssi(SsiType::Issi, v as u32),
        UplinkAddrType::EventLabel => UplinkAddress::EventLabel(v as u16),
        UplinkAddrType::Ussi => UplinkAddress::Ussi(v as u32),
        UplinkAddrType::Smi => UplinkAddress::Smi(v as u32),
    }
}

// The address of this type that is ahead, and what is ahead after it.
pub(crate) fn read_uplink_address(
    a: Ahead,
    t: UplinkAddrType,
) -> Result<(Ahead, UplinkAddress), Refusal>
    requires { Ready a uplink_most }
    ensures { ReadsNext (read_uplink_address (uplink_type_number t)) a uplink_most result }
{
    let n = t.width();
    if a.left < n {
        return Err(codec::field_past_end(a.at));
    }
    let v = a.next_bits(n);
    Ok((a.advance(n), uplink_of(t, v)))
}

// The number of an address.
pub fn uplink_number(a: UplinkAddress) -> u64
    ensures { (result ≡ uplink_number a) × (result < 4294967296) }
{
    match a {
        UplinkAddress::Ssi(_, v) => v as u64,
        UplinkAddress::EventLabel(l) => l as u64,
        UplinkAddress::Ussi(v) => v as u64,
        UplinkAddress::Smi(v) => v as u64,
    }
}

// Why an address is not written, if so.
pub fn uplink_address_refusal(a: UplinkAddress) -> Result<(), Reason>
    ensures { refused_by result ≡ uplink_address_refusal a }
{
    let v = uplink_number(a);
    let n = UplinkAddrType::of(a).width();
    if v >> n != 0 {
        return Err(Reason::ValueTooWide);
    }
    Ok(())
}

// Why an address is not written with this encryption, if so.
pub fn encryption_refusal(encrypted: bool, a: UplinkAddress) -> Result<(), Reason>
    ensures { refused_by result ≡ encryption_refusal encrypted a }
{
    if !encrypted {
        return Ok(());
    }
    match a {
        UplinkAddress::EventLabel(_) => Ok(()),
        UplinkAddress::Ssi(_, _) => Err(Reason::EncryptedAddress),
        UplinkAddress::Ussi(_) => Err(Reason::EncryptedAddress),
        UplinkAddress::Smi(_) => Err(Reason::EncryptedAddress),
    }
}
