// The addresses that an SSI of a kind becomes, 91 to 94: the SSI and its kind, 0 not known, 1 individual, 2 group.
use crate::answers::{Stop, Tell, Words};
use crate::calls::UnknownCall;
use crate::given::Given;
use tetra_core::address;
use tetra_core::address::{DownlinkAddress, SsiType, UplinkAddress};
use tetra_mac::address::ssi_kind;

#[derive(Clone, Copy)]
pub enum AddressCall {
    DownlinkNew = 91,
    DownlinkIssi,
    UplinkNew,
    UplinkIssi,
}

impl TryFrom<u64> for AddressCall {
    ghost use Rattle.replay_calls.specs.Calls.{Decodes, address_number};

    type Error = UnknownCall;

    ghost try_from_gives = { Decodes address_number };

    fn try_from(n: u64) -> Result<AddressCall, UnknownCall> {
        match n {
            91 => Ok(AddressCall::DownlinkNew),
            92 => Ok(AddressCall::DownlinkIssi),
            93 => Ok(AddressCall::UplinkNew),
            94 => Ok(AddressCall::UplinkIssi),
            _ => Err(UnknownCall),
        }
    }
}

fn ssi_type(kind: u64) -> SsiType {
    match kind {
        0 => SsiType::Ssi,
        1 => SsiType::Issi,
        _ => SsiType::Gssi,
    }
}

impl Tell for DownlinkAddress {
    fn tell(self, out: &mut Words) -> Result<(), Stop> {
        match self {
            DownlinkAddress::Ssi(kind, ssi) => [u64::from(ssi), ssi_kind(kind)].tell(out),
            _ => Err(Stop::Malformed),
        }
    }
}

impl Tell for UplinkAddress {
    fn tell(self, out: &mut Words) -> Result<(), Stop> {
        match self {
            UplinkAddress::Ssi(kind, ssi) => [u64::from(ssi), ssi_kind(kind)].tell(out),
            _ => Err(Stop::Malformed),
        }
    }
}

impl AddressCall {
    pub(crate) fn name(self) -> &'static str {
        match self {
            AddressCall::DownlinkNew => "downlink address, new",
            AddressCall::DownlinkIssi => "downlink address, issi",
            AddressCall::UplinkNew => "uplink address, new",
            AddressCall::UplinkIssi => "uplink address, issi",
        }
    }

    pub(crate) fn run(self, given: Given<'_>, out: &mut Words) -> Result<(), Stop> {
        let ssi = given.ssi(0);
        let kind = ssi_type(given.number(1));
        match self {
            AddressCall::DownlinkNew => address::new(ssi, kind).tell(out),
            AddressCall::DownlinkIssi => address::issi(ssi).tell(out),
            AddressCall::UplinkNew => address::uplink_new(ssi, kind).tell(out),
            AddressCall::UplinkIssi => address::uplink_issi(ssi).tell(out),
        }
    }
}
