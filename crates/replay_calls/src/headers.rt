// What headers are asked, and the headers and numbers that are given without a question: 104 to 110.
use crate::answers::{Stop, Tell, Words, status};
use crate::calls::UnknownCall;
use crate::given::Given;
use crate::usages::Usage;
use access_assign::access_assign as assign;
use access_assign::access_assign::AccessAssign;
use access_assign::enums::access_assign_dl_usage::AccessAssignDlUsage;
use access_assign::enums::access_assign_ul_usage::AccessAssignUlUsage;
use access_assign::structs::access_field::AccessField;
use mac_access::mac_access as access;
use mac_access::mac_access::{MacAccess, MacAccessOption};
use mac_resource::mac_resource as resource;
use mac_resource::mac_resource::MacResource;
use tetra_core::address::{DownlinkAddress, SsiType, UplinkAddress};
use tetra_fields::enums::reservation_requirement::ReservationRequirement;
use tetra_mac::address;

#[derive(Clone, Copy)]
pub enum HeaderCall {
    DlIsTraffic = 104,
    AccessIsNullPduIsFragStart,
    ResourceIsNullPdu,
    AssignDefault,
    NullPdu,
    Constants,
    ResourceDefault,
}

impl TryFrom<u64> for HeaderCall {
    ghost use Rattle.replay_calls.specs.Calls.{Decodes, header_number};

    type Error = UnknownCall;

    ghost try_from_gives = { Decodes header_number };

    fn try_from(n: u64) -> Result<HeaderCall, UnknownCall> {
        match n {
            104 => Ok(HeaderCall::DlIsTraffic),
            105 => Ok(HeaderCall::AccessIsNullPduIsFragStart),
            106 => Ok(HeaderCall::ResourceIsNullPdu),
            107 => Ok(HeaderCall::AssignDefault),
            108 => Ok(HeaderCall::NullPdu),
            109 => Ok(HeaderCall::Constants),
            110 => Ok(HeaderCall::ResourceDefault),
            _ => Err(UnknownCall),
        }
    }
}

// An ACCESS-ASSIGN of a header with a downlink usage, where it has one.
fn assign_of(header: u64, downlink_usage_marker: AccessAssignDlUsage) -> AccessAssign {
    let access_field = AccessField::from_raw(0);
    match header {
        0 => assign::default_access_assign(),
        1 => AccessAssign::DownlinkDefinedUplinkCommonAndAssigned {
            downlink_usage_marker,
            access_field,
        },
        2 => AccessAssign::DownlinkDefinedUplinkAssignedOnly {
            downlink_usage_marker,
            access_field,
        },
        _ => AccessAssign::DownlinkDefinedUplinkDefined {
            downlink_usage_marker,
            uplink_usage_marker: AccessAssignUlUsage::Unallocated,
        },
    }
}

// The access fields of an ACCESS-ASSIGN that has two.
fn access_fields(a: AccessAssign) -> Result<[u64; 2], Stop> {
    match a {
        AccessAssign::DownlinkCommonControlUplinkCommonOnly {
            access_field_1,
            access_field_2,
        } => Ok([access_field_1.into_raw(), access_field_2.into_raw()]),
        _ => Err(Stop::Malformed),
    }
}

// A MAC-ACCESS by its option: none, a length, or a fragment flag and a reservation.
fn access_of(given: Given<'_>) -> MacAccess {
    let option = match given.number(0) {
        0 => MacAccessOption::Without,
        1 => MacAccessOption::LengthInd(given.octet(1)),
        _ => {
            let requirement = ReservationRequirement::from_raw(given.number(2));
            MacAccessOption::CapacityRequest(given.number(1) == 1, requirement)
        }
    };
    MacAccess {
        fill_bits: false,
        encrypted: false,
        addr: UplinkAddress::Ssi(SsiType::Issi, 1),
        option,
    }
}

// A MAC-RESOURCE of an address and nothing else.
fn addressed(addr: DownlinkAddress) -> MacResource {
    MacResource {
        addr,
        fill_bits: false,
        pos_of_grant: 0,
        encryption_mode: 0,
        random_access_flag: false,
        length_ind: 2,
        power_control_element: None,
        slot_granting_element: None,
        chan_alloc_element: None,
    }
}

fn give_resource(h: MacResource, out: &mut Words) -> Result<(), Stop> {
    status(tetra_resource::give_mac_resource(&mut out.words, 0, h))
}

impl HeaderCall {
    pub(crate) fn name(self) -> &'static str {
        match self {
            HeaderCall::DlIsTraffic => "dl_is_traffic",
            HeaderCall::AccessIsNullPduIsFragStart => "MAC-ACCESS is_null_pdu, is_frag_start",
            HeaderCall::ResourceIsNullPdu => "MAC-RESOURCE is_null_pdu",
            HeaderCall::AssignDefault => "ACCESS-ASSIGN default",
            HeaderCall::NullPdu => "null_pdu",
            HeaderCall::Constants => "constants",
            HeaderCall::ResourceDefault => "MAC-RESOURCE default",
        }
    }

    pub(crate) fn run(self, given: Given<'_>, out: &mut Words) -> Result<(), Stop> {
        match self {
            HeaderCall::DlIsTraffic => {
                let usage = AccessAssignDlUsage::of_kind(given.number(1), given.octet(2));
                let a = assign_of(given.number(0), usage);
                [u64::from(assign::dl_is_traffic(a))].tell(out)
            }
            HeaderCall::AccessIsNullPduIsFragStart => {
                let h = access_of(given);
                let is_null = access::is_null_pdu(h);
                [u64::from(is_null), u64::from(access::is_frag_start(h))].tell(out)
            }
            HeaderCall::ResourceIsNullPdu => {
                let h = addressed(address::address_value(given.number(0), 0, 1, 1));
                [u64::from(resource::is_null_pdu(h))].tell(out)
            }
            HeaderCall::AssignDefault => access_fields(assign::default_access_assign())?.tell(out),
            HeaderCall::NullPdu => give_resource(resource::null_pdu(), out),
            HeaderCall::Constants => [
                u64::from(resource::MAC_RESOURCE_LENGTH_FRAG_START),
                u64::from(resource::MAC_RESOURCE_LENGTH_2ND_SLOT_STOLEN),
            ]
            .tell(out),
            HeaderCall::ResourceDefault => give_resource(resource::default_mac_resource(), out),
        }
    }
}
