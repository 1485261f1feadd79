// Clause 21.5.6, basic slot granting: the capacity allocation element, 4 bits.
ghost use Rattle.std.specs.Prelude.{◌≡◌, ◌<◌};
ghost use Rattle.tetra_fields.specs.BasicSlotgrant.{cap_alloc_number, cap_alloc_of, cap_alloc_case, granted_slots, cap_alloc_for};

use crate::enums::reservation_requirement::{ReqSlotcount, ReservationRequirement};
use codec::cases;
use codec::cases::NoCase;

#[derive(Clone, Copy)]
pub enum BasicSlotgrantCapAlloc {
    FirstSubslotGranted = 0,
    Grant1Slot = 1,
    Grant2Slots = 2,
    Grant3Slots = 3,
    Grant4Slots = 4,
    Grant5Slots = 5,
    Grant6Slots = 6,
    Grant8Slots = 7,
    Grant10Slots = 8,
    Grant13Slots = 9,
    Grant17Slots = 10,
    Grant24Slots = 11,
    Grant34Slots = 12,
    Grant51Slots = 13,
    Grant68Slots = 14,
    SecondSubslotGranted = 15,
}

// What a case grants.
#[derive(Clone, Copy)]
pub enum GrantedSlots {
    FirstSubslot,
    Slots(usize),
    SecondSubslot,
}

impl BasicSlotgrantCapAlloc {
    // The case of a field's bits, the low 4 of v.
    #[tactic(auto, unfolding(crate::specs::BasicSlotgrant::cap_alloc_of))]
    pub fn from_raw(v: u64) -> BasicSlotgrantCapAlloc
        ensures { result ≡ cap_alloc_of v }
    {
        match v % 16 {
            0 => BasicSlotgrantCapAlloc::FirstSubslotGranted,
            1 => BasicSlotgrantCapAlloc::Grant1Slot,
            2 => BasicSlotgrantCapAlloc::Grant2Slots,
            3 => BasicSlotgrantCapAlloc::Grant3Slots,
            4 => BasicSlotgrantCapAlloc::Grant4Slots,
            5 => BasicSlotgrantCapAlloc::Grant5Slots,
            6 => BasicSlotgrantCapAlloc::Grant6Slots,
            7 => BasicSlotgrantCapAlloc::Grant8Slots,
            8 => BasicSlotgrantCapAlloc::Grant10Slots,
            9 => BasicSlotgrantCapAlloc::Grant13Slots,
            10 => BasicSlotgrantCapAlloc::Grant17Slots,
            11 => BasicSlotgrantCapAlloc::Grant24Slots,
            12 => BasicSlotgrantCapAlloc::Grant34Slots,
            13 => BasicSlotgrantCapAlloc::Grant51Slots,
            14 => BasicSlotgrantCapAlloc::Grant68Slots,
            _ => BasicSlotgrantCapAlloc::SecondSubslotGranted,
        }
    }

    // The number of a case.
    pub fn into_raw(self) -> u64
        ensures { (result ≡ cap_alloc_number self) × (result < 16) }
    {
        self as u64
    }

    // The least case that grants req slots, 0 for the first subslot and 99 for the second. It has the number of the reservation requirement
    // that asks for as many.
    pub fn from_req_slotcount(req: usize) -> Option<BasicSlotgrantCapAlloc>
        ensures { result ≡ cap_alloc_for req }
    {
        if req == 99 {
            return Some(BasicSlotgrantCapAlloc::SecondSubslotGranted);
        }
        if 68 < req {
            return None;
        }
        let asked = ReservationRequirement::from_req_slotcount(req);
        Some(BasicSlotgrantCapAlloc::from_raw(asked.into_raw()))
    }

    // What a case grants.
    pub fn to_req_slotcount(self) -> GrantedSlots
        ensures { result ≡ granted_slots self }
    {
        let asked = ReservationRequirement::from_raw(self.into_raw());
        match asked.to_req_slotcount() {
            ReqSlotcount::Subslot => GrantedSlots::FirstSubslot,
            ReqSlotcount::Slots(n) => GrantedSlots::Slots(n),
            ReqSlotcount::Over68 => GrantedSlots::SecondSubslot,
        }
    }
}

// The case of a number; above 15 there is none.
impl TryFrom<u64> for BasicSlotgrantCapAlloc {
    type Error = NoCase;

    ghost try_from_gives = { λ v r. r ≡ cap_alloc_case v };

    fn try_from(v: u64) -> Result<BasicSlotgrantCapAlloc, NoCase> {
        Ok(BasicSlotgrantCapAlloc::from_raw(cases::up_to(v, 15)?))
    }
}

impl From<BasicSlotgrantCapAlloc> for u64 {
    ghost from_gives = { λ a n. n ≡ cap_alloc_number a };

    fn from(a: BasicSlotgrantCapAlloc) -> u64 {
        a.into_raw()
    }
}
