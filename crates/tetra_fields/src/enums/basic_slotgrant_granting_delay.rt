// Clause 21.5.6, basic slot granting: the granting delay element, 4 bits.
ghost use Rattle.std.specs.Prelude.{◌≡◌, ◌<◌};
ghost use Rattle.tetra_fields.specs.BasicSlotgrant.{delay_number, delay_of, delay_case};

use codec::cases;
use codec::cases::NoCase;

#[derive(Clone, Copy)]
pub enum BasicSlotgrantGrantingDelay {
    CapAllocAtNextOpportunity,
    // 1 to 13 opportunities
    DelayNOpportunities(u8),
    AllocStartsAtOpportunityInFr18,
    WaitForAnotherSlotgrantMessage,
}

impl BasicSlotgrantGrantingDelay {
    // The case of a field's bits, the low 4 of v.
    #[tactic(auto, unfolding(crate::specs::BasicSlotgrant::delay_of))]
    pub fn from_raw(v: u64) -> BasicSlotgrantGrantingDelay
        ensures { result ≡ delay_of v }
    {
        let n = v % 16;
        match n {
            0 => BasicSlotgrantGrantingDelay::CapAllocAtNextOpportunity,
            14 => BasicSlotgrantGrantingDelay::AllocStartsAtOpportunityInFr18,
            15 => BasicSlotgrantGrantingDelay::WaitForAnotherSlotgrantMessage,
            _ => BasicSlotgrantGrantingDelay::DelayNOpportunities(n as u8),
        }
    }

    // The number of a case.
    pub fn into_raw(self) -> u64
        ensures { (result ≡ delay_number self) × (result < 256) }
    {
        match self {
            BasicSlotgrantGrantingDelay::CapAllocAtNextOpportunity => 0,
            BasicSlotgrantGrantingDelay::DelayNOpportunities(n) => n as u64,
            BasicSlotgrantGrantingDelay::AllocStartsAtOpportunityInFr18 => 14,
            BasicSlotgrantGrantingDelay::WaitForAnotherSlotgrantMessage => 15,
        }
    }
}

// The case of a number; above 15 there is none.
impl TryFrom<u64> for BasicSlotgrantGrantingDelay {
    type Error = NoCase;

    ghost try_from_gives = { λ v r. r ≡ delay_case v };

    fn try_from(v: u64) -> Result<BasicSlotgrantGrantingDelay, NoCase> {
        Ok(BasicSlotgrantGrantingDelay::from_raw(cases::up_to(v, 15)?))
    }
}

impl From<BasicSlotgrantGrantingDelay> for u64 {
    ghost from_gives = { λ a n. n ≡ delay_number a };

    fn from(a: BasicSlotgrantGrantingDelay) -> u64 {
        a.into_raw()
    }
}
