// Addresses as words: address type, SSI kind, and one number in the uplink, two in the downlink. A type has only some of them.
ghost use Rattle.std.specs.Prelude.{◌≡◌};
ghost use Rattle.tetra_mac.specs.Address.{ssi_kind, ssi_of_kind, uplink_kind, uplink_known, uplink_value, address_known, address_value};

use crate::record;
use tetra_core::address::{DownlinkAddress, SsiType, UplinkAddress};

pub fn ssi_kind(k: SsiType) -> u64
    ensures { result ≡ ssi_kind k }
{
    match k {
        SsiType::Ssi => 0,
        SsiType::Issi => 1,
        SsiType::Gssi => 2,
    }
}

fn ssi_of_kind(kind: u64) -> SsiType
    ensures { result ≡ ssi_of_kind kind }
{
    match kind {
        0 => SsiType::Ssi,
        1 => SsiType::Issi,
        _ => SsiType::Gssi,
    }
}

// The SSI kind of an uplink address, 0 where it has none.
pub(crate) fn uplink_kind(a: UplinkAddress) -> u64
    ensures { result ≡ uplink_kind a }
{
    match a {
        UplinkAddress::Ssi(k, _) => ssi_kind(k),
        UplinkAddress::EventLabel(_) => 0,
        UplinkAddress::Ussi(_) => 0,
        UplinkAddress::Smi(_) => 0,
    }
}

// Whether there is such an address type and, where it has one, such an SSI kind.
pub(crate) fn uplink_known(addr_type: u64, kind: u64) -> bool
    ensures { result ≡ uplink_known addr_type kind }
{
    match addr_type {
        0 => kind < 3,
        1 => true,
        2 => true,
        3 => true,
        _ => false,
    }
}

// The uplink address of a type.
pub(crate) fn uplink_value(addr_type: u64, kind: u64, number: u64) -> UplinkAddress
    ensures { result ≡ uplink_value addr_type kind number }
{
    match addr_type {
        0 => UplinkAddress::Ssi(ssi_of_kind(kind), record::number32(number)),
        1 => UplinkAddress::EventLabel(record::number16(number)),
        2 => UplinkAddress::Ussi(record::number32(number)),
        _ => UplinkAddress::Smi(record::number32(number)),
    }
}

// Whether there is such an address type and, where it has one, such an SSI kind.
pub fn address_known(addr_type: u64, kind: u64) -> bool
    ensures { result ≡ address_known addr_type kind }
{
    // so a record with a good kind is not asked which types have one
    if kind < 3 {
        return addr_type < 8;
    }
    match addr_type {
        0 => true,
        1 => false,
        2 => true,
        3 => true,
        4 => true,
        5 => false,
        6 => false,
        7 => true,
        _ => false,
    }
}

// The address of a type.
pub fn address_value(addr_type: u64, kind: u64, a: u64, b: u64) -> DownlinkAddress
    ensures { result ≡ address_value addr_type kind a b }
{
    match addr_type {
        0 => DownlinkAddress::NullPdu,
        1 => DownlinkAddress::Ssi(ssi_of_kind(kind), record::number32(a)),
        2 => DownlinkAddress::EventLabel(record::number16(a)),
        3 => DownlinkAddress::Ussi(record::number32(a)),
        4 => DownlinkAddress::Smi(record::number32(a)),
        5 => DownlinkAddress::SsiAndEventLabel(
            ssi_of_kind(kind),
            record::number32(a),
            record::number16(b),
        ),
        6 => DownlinkAddress::SsiAndUsageMarker(
            ssi_of_kind(kind),
            record::number32(a),
            record::number8(b),
        ),
        _ => DownlinkAddress::SmiAndEventLabel(record::number32(a), record::number16(b)),
    }
}
