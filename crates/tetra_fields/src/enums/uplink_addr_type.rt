// Clauses 21.4.2.1 and 21.4.2.3: the address type of a MAC-ACCESS or MAC-DATA, 2 bits.
ghost use Rattle.std.specs.Prelude.{◌≡◌, ◌≤◌, ◌<◌};
ghost use Rattle.tetra_core.specs.Address.{uplink_address_type};
ghost use Rattle.tetra_fields.specs.UplinkAddress.{uplink_most, uplink_width, uplink_type_number, uplink_type_of, uplink_type_case};

use crate::fields::uplink_address;
use codec::cases;
use codec::cases::NoCase;
use tetra_core::address::UplinkAddress;

#[derive(Clone, Copy)]
pub enum UplinkAddrType {
    Ssi = 0,
    EventLabel = 1,
    Ussi = 2,
    Smi = 3,
}

impl UplinkAddrType {
    // The case of a field's bits, the low 2 of v.
    #[tactic(auto, unfolding(crate::specs::UplinkAddress::uplink_type_of))]
    pub fn from_raw(v: u64) -> UplinkAddrType
        ensures { result ≡ uplink_type_of v }
    {
        match v % 4 {
            0 => UplinkAddrType::Ssi,
            1 => UplinkAddrType::EventLabel,
            2 => UplinkAddrType::Ussi,
            _ => UplinkAddrType::Smi,
        }
    }

    // The number of a case.
    pub fn into_raw(self) -> u64
        ensures { (result ≡ uplink_type_number self) × (result < 4) }
    {
        self as u64
    }

    // The bits of an address of this type.
    pub fn width(self) -> usize
        ensures { (result ≡ uplink_width (uplink_type_number self)) × (0 < result) × (result ≤ uplink_most) }
    {
        uplink_address::uplink_width(self.into_raw())
    }

    // The type of an address.
    pub fn of(a: UplinkAddress) -> UplinkAddrType
        ensures { uplink_type_number result ≡ uplink_address_type a }
    {
        match a {
            UplinkAddress::Ssi(_, _) => UplinkAddrType::Ssi,
            UplinkAddress::EventLabel(_) => UplinkAddrType::EventLabel,
            UplinkAddress::Ussi(_) => UplinkAddrType::Ussi,
            UplinkAddress::Smi(_) => UplinkAddrType::Smi,
        }
    }
}

// The case of a number; above 3 there is none.
impl TryFrom<u64> for UplinkAddrType {
    type Error = NoCase;

    ghost try_from_gives = { λ v r. r ≡ uplink_type_case v };

    fn try_from(v: u64) -> Result<UplinkAddrType, NoCase> {
        Ok(UplinkAddrType::from_raw(cases::up_to(v, 3)?))
    }
}

impl From<UplinkAddrType> for u64 {
    ghost from_gives = { λ a n. n ≡ uplink_type_number a };

    fn from(a: UplinkAddrType) -> u64 {
        a.into_raw()
    }
}
