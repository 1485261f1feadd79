// Clause 21.5.2, channel allocation: the allocation type element, 2 bits.
ghost use Rattle.std.specs.Prelude.{◌≡◌, ◌<◌};
ghost use Rattle.channel_allocation.specs.ChannelAllocation.{alloc_type_number, alloc_type_of, alloc_type_case};

use codec::cases;
use codec::cases::NoCase;

#[derive(Clone, Copy)]
pub enum ChanAllocType {
    Replace = 0,
    Additional = 1,
    QuitAndGo = 2,
    ReplaceWithCarrierSignalling = 3,
}

impl ChanAllocType {
    // The case of a field's bits, the low 2 of v.
    #[tactic(auto, unfolding(crate::specs::ChannelAllocation::alloc_type_of))]
    pub fn from_raw(v: u64) -> ChanAllocType
        ensures { result ≡ alloc_type_of v }
    {
        match v % 4 {
            0 => ChanAllocType::Replace,
            1 => ChanAllocType::Additional,
            2 => ChanAllocType::QuitAndGo,
            _ => ChanAllocType::ReplaceWithCarrierSignalling,
        }
    }

    // The number of a case.
    pub fn into_raw(self) -> u64
        ensures { (result ≡ alloc_type_number self) × (result < 4) }
    {
        self as u64
    }
}

// The case of a number; above 3 there is none.
impl TryFrom<u64> for ChanAllocType {
    type Error = NoCase;

    ghost try_from_gives = { λ v r. r ≡ alloc_type_case v };

    fn try_from(v: u64) -> Result<ChanAllocType, NoCase> {
        Ok(ChanAllocType::from_raw(cases::up_to(v, 3)?))
    }
}

impl From<ChanAllocType> for u64 {
    ghost from_gives = { λ a n. n ≡ alloc_type_number a };

    fn from(a: ChanAllocType) -> u64 {
        a.into_raw()
    }
}
