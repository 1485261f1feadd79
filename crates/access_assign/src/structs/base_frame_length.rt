// Clause 21.4.7.2, ACCESS-ASSIGN: the base frame-length of an access field, 4 bits.
ghost use Rattle.std.specs.Prelude.{◌≡◌, ◌<◌};
ghost use Rattle.access_assign.specs.AccessField.{base_frame_length_number, base_frame_length_of, base_frame_length_case};

use codec::cases;
use codec::cases::NoCase;

#[derive(Clone, Copy)]
pub enum BaseFrameLength {
    // The subslot is assigned already; the access code has no meaning.
    ReservedSubslot = 0,
    // Common access for linearisation only; the access code has no meaning.
    CLCHSubslot = 1,
    // The access frame that began before goes on.
    OngoingFrame = 2,
    // A new access frame of so many subslots.
    Subslots1 = 3,
    Subslots2 = 4,
    Subslots3 = 5,
    Subslots4 = 6,
    Subslots5 = 7,
    Subslots6 = 8,
    Subslots8 = 9,
    Subslots10 = 10,
    Subslots12 = 11,
    Subslots16 = 12,
    Subslots20 = 13,
    Subslots24 = 14,
    Subslots32 = 15,
}

impl BaseFrameLength {
    // The case of a field's bits, the low 4 of v.
    #[tactic(auto, unfolding(crate::specs::AccessField::base_frame_length_of))]
    pub fn from_raw(v: u64) -> BaseFrameLength
        ensures { result ≡ base_frame_length_of v }
    {
        match v % 16 {
            0 => BaseFrameLength::ReservedSubslot,
            1 => BaseFrameLength::CLCHSubslot,
            2 => BaseFrameLength::OngoingFrame,
            3 => BaseFrameLength::Subslots1,
            4 => BaseFrameLength::Subslots2,
            5 => BaseFrameLength::Subslots3,
            6 => BaseFrameLength::Subslots4,
            7 => BaseFrameLength::Subslots5,
            8 => BaseFrameLength::Subslots6,
            9 => BaseFrameLength::Subslots8,
            10 => BaseFrameLength::Subslots10,
            11 => BaseFrameLength::Subslots12,
            12 => BaseFrameLength::Subslots16,
            13 => BaseFrameLength::Subslots20,
            14 => BaseFrameLength::Subslots24,
            _ => BaseFrameLength::Subslots32,
        }
    }

    // The number of a case.
    pub fn into_raw(self) -> u64
        ensures { (result ≡ base_frame_length_number self) × (result < 16) }
    {
        self as u64
    }
}

// The case of a number; above 15 there is none.
impl TryFrom<u64> for BaseFrameLength {
    type Error = NoCase;

    ghost try_from_gives = { λ v r. r ≡ base_frame_length_case v };

    fn try_from(v: u64) -> Result<BaseFrameLength, NoCase> {
        Ok(BaseFrameLength::from_raw(cases::up_to(v, 15)?))
    }
}

impl From<BaseFrameLength> for u64 {
    ghost from_gives = { λ a n. n ≡ base_frame_length_number a };

    fn from(a: BaseFrameLength) -> u64 {
        a.into_raw()
    }
}
