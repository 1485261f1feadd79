// Clause 21.5.2, channel allocation: the up/downlink assigned element, 2 bits.
ghost use Rattle.std.specs.Prelude.{◌≡◌, ◌<◌};
ghost use Rattle.channel_allocation.specs.ChannelAllocation.{ul_dl_number, ul_dl_of, ul_dl_case};

use codec::cases;
use codec::cases::NoCase;

#[derive(Clone, Copy)]
pub enum UlDlAssignment {
    Augmented = 0,
    Dl = 1,
    Ul = 2,
    Both = 3,
}

impl UlDlAssignment {
    // The case of a field's bits, the low 2 of v.
    #[tactic(auto, unfolding(crate::specs::ChannelAllocation::ul_dl_of))]
    pub fn from_raw(v: u64) -> UlDlAssignment
        ensures { result ≡ ul_dl_of v }
    {
        match v % 4 {
            0 => UlDlAssignment::Augmented,
            1 => UlDlAssignment::Dl,
            2 => UlDlAssignment::Ul,
            _ => UlDlAssignment::Both,
        }
    }

    // The number of a case.
    pub fn into_raw(self) -> u64
        ensures { (result ≡ ul_dl_number self) × (result < 4) }
    {
        self as u64
    }
}

// The case of a number; above 3 there is none.
impl TryFrom<u64> for UlDlAssignment {
    type Error = NoCase;

    ghost try_from_gives = { λ v r. r ≡ ul_dl_case v };

    fn try_from(v: u64) -> Result<UlDlAssignment, NoCase> {
        Ok(UlDlAssignment::from_raw(cases::up_to(v, 3)?))
    }
}

impl From<UlDlAssignment> for u64 {
    ghost from_gives = { λ a n. n ≡ ul_dl_number a };

    fn from(a: UlDlAssignment) -> u64 {
        a.into_raw()
    }
}
