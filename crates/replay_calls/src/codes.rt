// The enums that are a field, 80 to 90: of a number the case by its name, counted from 0 as it is declared, and the code of that case again;
// no word where the number has no case.
use crate::answers::{Stop, Tell, Words};
use crate::calls::UnknownCall;
use crate::given::Given;
use access_assign::enums::access_code::AccessCode;
use access_assign::structs::access_field::AccessField;
use access_assign::structs::base_frame_length::BaseFrameLength;
use mac_resource::enums::mac_resource_addr_type::MacResourceAddrType;
use tetra_fields::enums::basic_slotgrant_cap_alloc::{BasicSlotgrantCapAlloc, GrantedSlots};
use tetra_fields::enums::basic_slotgrant_granting_delay::BasicSlotgrantGrantingDelay;
use tetra_fields::enums::reservation_requirement::{ReqSlotcount, ReservationRequirement};

#[derive(Clone, Copy)]
pub enum CodeCall {
    Capacity = 80,
    GrantingDelay,
    DelayCount,
    Reservation,
    ReservationFor,
    AccessCode,
    BaseFrameLength,
    AccessField,
    AddressType,
    CapacityFor,
    Granted,
}

impl TryFrom<u64> for CodeCall {
    ghost use Rattle.replay_calls.specs.Calls.{Decodes, code_number};

    type Error = UnknownCall;

    ghost try_from_gives = { Decodes code_number };

    fn try_from(n: u64) -> Result<CodeCall, UnknownCall> {
        match n {
            80 => Ok(CodeCall::Capacity),
            81 => Ok(CodeCall::GrantingDelay),
            82 => Ok(CodeCall::DelayCount),
            83 => Ok(CodeCall::Reservation),
            84 => Ok(CodeCall::ReservationFor),
            85 => Ok(CodeCall::AccessCode),
            86 => Ok(CodeCall::BaseFrameLength),
            87 => Ok(CodeCall::AccessField),
            88 => Ok(CodeCall::AddressType),
            89 => Ok(CodeCall::CapacityFor),
            90 => Ok(CodeCall::Granted),
            _ => Err(UnknownCall),
        }
    }
}

// An enum that is a field.
trait Coded: Copy + Into<u64> {
    // The place of the case that has the name.
    fn place(self) -> u64;
}

impl Coded for BasicSlotgrantCapAlloc {
    fn place(self) -> u64 {
        match self {
            BasicSlotgrantCapAlloc::FirstSubslotGranted => 0,
            BasicSlotgrantCapAlloc::Grant1Slot => 1,
            BasicSlotgrantCapAlloc::Grant2Slots => 2,
            BasicSlotgrantCapAlloc::Grant3Slots => 3,
            BasicSlotgrantCapAlloc::Grant4Slots => 4,
            BasicSlotgrantCapAlloc::Grant5Slots => 5,
            BasicSlotgrantCapAlloc::Grant6Slots => 6,
            BasicSlotgrantCapAlloc::Grant8Slots => 7,
            BasicSlotgrantCapAlloc::Grant10Slots => 8,
            BasicSlotgrantCapAlloc::Grant13Slots => 9,
            BasicSlotgrantCapAlloc::Grant17Slots => 10,
            BasicSlotgrantCapAlloc::Grant24Slots => 11,
            BasicSlotgrantCapAlloc::Grant34Slots => 12,
            BasicSlotgrantCapAlloc::Grant51Slots => 13,
            BasicSlotgrantCapAlloc::Grant68Slots => 14,
            BasicSlotgrantCapAlloc::SecondSubslotGranted => 15,
        }
    }
}

impl Coded for BasicSlotgrantGrantingDelay {
    fn place(self) -> u64 {
        match self {
            BasicSlotgrantGrantingDelay::CapAllocAtNextOpportunity => 0,
            BasicSlotgrantGrantingDelay::DelayNOpportunities(_) => 1,
            BasicSlotgrantGrantingDelay::AllocStartsAtOpportunityInFr18 => 2,
            BasicSlotgrantGrantingDelay::WaitForAnotherSlotgrantMessage => 3,
        }
    }
}

// A case has a name of its own by what it asks for: a subslot 0, slots their count, more than 68 slots 99.
impl Coded for ReservationRequirement {
    fn place(self) -> u64 {
        match self.to_req_slotcount() {
            ReqSlotcount::Subslot => 0,
            ReqSlotcount::Slots(n) => n as u64,
            ReqSlotcount::Over68 => 99,
        }
    }
}

impl Coded for AccessCode {
    fn place(self) -> u64 {
        match self {
            AccessCode::AccessCodeA => 0,
            AccessCode::AccessCodeB => 1,
            AccessCode::AccessCodeC => 2,
            AccessCode::AccessCodeD => 3,
        }
    }
}

impl Coded for BaseFrameLength {
    fn place(self) -> u64 {
        match self {
            BaseFrameLength::ReservedSubslot => 0,
            BaseFrameLength::CLCHSubslot => 1,
            BaseFrameLength::OngoingFrame => 2,
            BaseFrameLength::Subslots1 => 3,
            BaseFrameLength::Subslots2 => 4,
            BaseFrameLength::Subslots3 => 5,
            BaseFrameLength::Subslots4 => 6,
            BaseFrameLength::Subslots5 => 7,
            BaseFrameLength::Subslots6 => 8,
            BaseFrameLength::Subslots8 => 9,
            BaseFrameLength::Subslots10 => 10,
            BaseFrameLength::Subslots12 => 11,
            BaseFrameLength::Subslots16 => 12,
            BaseFrameLength::Subslots20 => 13,
            BaseFrameLength::Subslots24 => 14,
            BaseFrameLength::Subslots32 => 15,
        }
    }
}

impl Coded for MacResourceAddrType {
    fn place(self) -> u64 {
        match self {
            MacResourceAddrType::NullPdu => 0,
            MacResourceAddrType::Ssi => 1,
            MacResourceAddrType::EventLabel => 2,
            MacResourceAddrType::Ussi => 3,
            MacResourceAddrType::Smi => 4,
            MacResourceAddrType::SsiAndEventLabel => 5,
            MacResourceAddrType::SsiAndUsageMarker => 6,
            MacResourceAddrType::SmiAndEventLabel => 7,
        }
    }
}

// The place and the code of the case that there is.
fn case<T: Coded>(found: Option<T>, out: &mut Words) -> Result<(), Stop> {
    found.map(|a| [a.place(), a.into()]).tell(out)
}

// Both cases of an access field, and its code.
fn field(f: AccessField) -> [u64; 3] {
    let access_code = f.access_code;
    let length = f.base_frame_len;
    [access_code.place(), length.place(), f.into_raw()]
}

// What a case grants: the first subslot 0, slots their count, the second subslot 99.
fn granted(a: BasicSlotgrantCapAlloc) -> u64 {
    match a.to_req_slotcount() {
        GrantedSlots::FirstSubslot => 0,
        GrantedSlots::Slots(n) => n as u64,
        GrantedSlots::SecondSubslot => 99,
    }
}

impl CodeCall {
    pub(crate) fn name(self) -> &'static str {
        match self {
            CodeCall::Capacity => "codes of BasicSlotgrantCapAlloc",
            CodeCall::GrantingDelay => "codes of BasicSlotgrantGrantingDelay",
            CodeCall::DelayCount => "code of a delay count",
            CodeCall::Reservation => "codes of ReservationRequirement, to_req_slotcount",
            CodeCall::ReservationFor => "reservation, from_req_slotcount",
            CodeCall::AccessCode => "codes of AccessCode",
            CodeCall::BaseFrameLength => "codes of BaseFrameLength",
            CodeCall::AccessField => "codes of AccessField",
            CodeCall::AddressType => "codes of MacResourceAddrType",
            CodeCall::CapacityFor => "capacity, from_req_slotcount",
            CodeCall::Granted => "capacity, to_req_slotcount",
        }
    }

    pub(crate) fn run(self, given: Given<'_>, out: &mut Words) -> Result<(), Stop> {
        let v = given.number(0);
        let req = given.count(0);
        match self {
            CodeCall::Capacity => case(BasicSlotgrantCapAlloc::try_from(v).ok(), out),
            CodeCall::GrantingDelay => case(BasicSlotgrantGrantingDelay::try_from(v).ok(), out),
            CodeCall::DelayCount => {
                let d = BasicSlotgrantGrantingDelay::DelayNOpportunities(given.octet(0));
                [d.into_raw()].tell(out)
            }
            CodeCall::Reservation => case(ReservationRequirement::try_from(v).ok(), out),
            CodeCall::ReservationFor => {
                case(Some(ReservationRequirement::from_req_slotcount(req)), out)
            }
            CodeCall::AccessCode => case(AccessCode::try_from(v).ok(), out),
            CodeCall::BaseFrameLength => case(BaseFrameLength::try_from(v).ok(), out),
            CodeCall::AccessField => field(AccessField::from_raw(v)).tell(out),
            CodeCall::AddressType => case(MacResourceAddrType::try_from(v).ok(), out),
            CodeCall::CapacityFor => case(BasicSlotgrantCapAlloc::from_req_slotcount(req), out),
            CodeCall::Granted => [granted(BasicSlotgrantCapAlloc::from_raw(v))].tell(out),
        }
    }
}
