// Clause 21.5.4, reservation requirement: 4 bits.
ghost use Rattle.std.specs.Prelude.{◌≡◌, ◌<◌};
ghost use Rattle.tetra_fields.specs.ReservationRequirement.{reservation_number, reservation_of, reservation_case, reservation_for, slotcount};

use codec::cases;
use codec::cases::NoCase;

#[derive(Clone, Copy)]
pub enum ReservationRequirement {
    Req1Subslot = 0,
    Req1Slot = 1,
    Req2Slots = 2,
    Req3Slots = 3,
    Req4Slots = 4,
    Req5Slots = 5,
    Req6Slots = 6,
    Req8Slots = 7,
    Req10Slots = 8,
    Req13Slots = 9,
    Req17Slots = 10,
    Req24Slots = 11,
    Req34Slots = 12,
    Req51Slots = 13,
    Req68Slots = 14,
    ReqOver68 = 15,
}

// What a case asks for.
#[derive(Clone, Copy)]
pub enum ReqSlotcount {
    Subslot,
    Slots(usize),
    Over68,
}

impl ReservationRequirement {
    // The case of a field's bits, the low 4 of v.
    #[tactic(auto, unfolding(crate::specs::ReservationRequirement::reservation_of))]
    pub fn from_raw(v: u64) -> ReservationRequirement
        ensures { result ≡ reservation_of v }
    {
        match v % 16 {
            0 => ReservationRequirement::Req1Subslot,
            1 => ReservationRequirement::Req1Slot,
            2 => ReservationRequirement::Req2Slots,
            3 => ReservationRequirement::Req3Slots,
            4 => ReservationRequirement::Req4Slots,
            5 => ReservationRequirement::Req5Slots,
            6 => ReservationRequirement::Req6Slots,
            7 => ReservationRequirement::Req8Slots,
            8 => ReservationRequirement::Req10Slots,
            9 => ReservationRequirement::Req13Slots,
            10 => ReservationRequirement::Req17Slots,
            11 => ReservationRequirement::Req24Slots,
            12 => ReservationRequirement::Req34Slots,
            13 => ReservationRequirement::Req51Slots,
            14 => ReservationRequirement::Req68Slots,
            _ => ReservationRequirement::ReqOver68,
        }
    }

    // The number of a case.
    pub fn into_raw(self) -> u64
        ensures { (result ≡ reservation_number self) × (result < 16) }
    {
        self as u64
    }

    // The least case that is enough for req slots, 0 for one subslot.
    #[tactic(auto, unfolding(crate::specs::ReservationRequirement::reservation_for))]
    pub fn from_req_slotcount(req: usize) -> ReservationRequirement
        ensures { result ≡ reservation_for req }
    {
        match req {
            0 => ReservationRequirement::Req1Subslot,
            1 => ReservationRequirement::Req1Slot,
            2 => ReservationRequirement::Req2Slots,
            3 => ReservationRequirement::Req3Slots,
            4 => ReservationRequirement::Req4Slots,
            5 => ReservationRequirement::Req5Slots,
            6 => ReservationRequirement::Req6Slots,
            7..=8 => ReservationRequirement::Req8Slots,
            9..=10 => ReservationRequirement::Req10Slots,
            11..=13 => ReservationRequirement::Req13Slots,
            14..=17 => ReservationRequirement::Req17Slots,
            18..=24 => ReservationRequirement::Req24Slots,
            25..=34 => ReservationRequirement::Req34Slots,
            35..=51 => ReservationRequirement::Req51Slots,
            52..=68 => ReservationRequirement::Req68Slots,
            _ => ReservationRequirement::ReqOver68,
        }
    }

    // What a case asks for.
    pub fn to_req_slotcount(self) -> ReqSlotcount
        ensures { result ≡ slotcount self }
    {
        match self {
            ReservationRequirement::Req1Subslot => ReqSlotcount::Subslot,
            ReservationRequirement::Req1Slot => ReqSlotcount::Slots(1),
            ReservationRequirement::Req2Slots => ReqSlotcount::Slots(2),
            ReservationRequirement::Req3Slots => ReqSlotcount::Slots(3),
            ReservationRequirement::Req4Slots => ReqSlotcount::Slots(4),
            ReservationRequirement::Req5Slots => ReqSlotcount::Slots(5),
            ReservationRequirement::Req6Slots => ReqSlotcount::Slots(6),
            ReservationRequirement::Req8Slots => ReqSlotcount::Slots(8),
            ReservationRequirement::Req10Slots => ReqSlotcount::Slots(10),
            ReservationRequirement::Req13Slots => ReqSlotcount::Slots(13),
            ReservationRequirement::Req17Slots => ReqSlotcount::Slots(17),
            ReservationRequirement::Req24Slots => ReqSlotcount::Slots(24),
            ReservationRequirement::Req34Slots => ReqSlotcount::Slots(34),
            ReservationRequirement::Req51Slots => ReqSlotcount::Slots(51),
            ReservationRequirement::Req68Slots => ReqSlotcount::Slots(68),
            ReservationRequirement::ReqOver68 => ReqSlotcount::Over68,
        }
    }
}

// The case of a number; above 15 there is none.
impl TryFrom<u64> for ReservationRequirement {
    type Error = NoCase;

    ghost try_from_gives = { λ v r. r ≡ reservation_case v };

    fn try_from(v: u64) -> Result<ReservationRequirement, NoCase> {
        Ok(ReservationRequirement::from_raw(cases::up_to(v, 15)?))
    }
}

impl From<ReservationRequirement> for u64 {
    ghost from_gives = { λ a n. n ≡ reservation_number a };

    fn from(a: ReservationRequirement) -> u64 {
        a.into_raw()
    }
}
