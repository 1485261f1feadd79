// Clause 21.4.7.2, ACCESS-ASSIGN: the access code of an access field, 2 bits.
ghost use Rattle.std.specs.Prelude.{◌≡◌, ◌<◌};
ghost use Rattle.access_assign.specs.AccessField.{access_code_number, access_code_of, access_code_case};

use codec::cases;
use codec::cases::NoCase;

#[derive(Clone, Copy)]
pub enum AccessCode {
    AccessCodeA = 0,
    AccessCodeB = 1,
    AccessCodeC = 2,
    AccessCodeD = 3,
}

impl AccessCode {
    // The case of a field's bits, the low 2 of v.
    #[tactic(auto, unfolding(crate::specs::AccessField::access_code_of))]
    pub fn from_raw(v: u64) -> AccessCode
        ensures { result ≡ access_code_of v }
    {
        match v % 4 {
            0 => AccessCode::AccessCodeA,
            1 => AccessCode::AccessCodeB,
            2 => AccessCode::AccessCodeC,
            _ => AccessCode::AccessCodeD,
        }
    }

    // The number of a case.
    pub fn into_raw(self) -> u64
        ensures { (result ≡ access_code_number self) × (result < 4) }
    {
        self as u64
    }
}

// The case of a number; above 3 there is none.
impl TryFrom<u64> for AccessCode {
    type Error = NoCase;

    ghost try_from_gives = { λ v r. r ≡ access_code_case v };

    fn try_from(v: u64) -> Result<AccessCode, NoCase> {
        Ok(AccessCode::from_raw(cases::up_to(v, 3)?))
    }
}

impl From<AccessCode> for u64 {
    ghost from_gives = { λ a n. n ≡ access_code_number a };

    fn from(a: AccessCode) -> u64 {
        a.into_raw()
    }
}
