// Clause 21.4.7.2, ACCESS-ASSIGN: an access field, 6 bits, access code 2 and base frame-length 4.
ghost use Rattle.std.specs.Prelude.{◌≡◌, ◌<◌};
ghost use Rattle.access_assign.specs.AccessField.{access_field_number, access_field_of};

use crate::enums::access_code::AccessCode;
use crate::structs::base_frame_length::BaseFrameLength;

// What the access code is worth in an access field; the base frame-length is worth 1.
const ACCESS_CODE: u64 = 1 << 4;

#[derive(Clone, Copy)]
pub struct AccessField {
    pub access_code: AccessCode,
    pub base_frame_len: BaseFrameLength,
}

impl AccessField {
    // The access field of a field's bits, the low 6 of v. The Rust's try_from takes them too, and never fails.
    #[tactic(auto, unfolding(crate::specs::AccessField::access_field_of))]
    pub fn from_raw(v: u64) -> AccessField
        ensures { result ≡ access_field_of v }
    {
        AccessField {
            access_code: AccessCode::from_raw(v / ACCESS_CODE % 4),
            base_frame_len: BaseFrameLength::from_raw(v % 16),
        }
    }

    // The number of an access field.
    pub fn into_raw(self) -> u64
        ensures { (result ≡ access_field_number self) × (result < 64) }
    {
        self.access_code.into_raw() * ACCESS_CODE + self.base_frame_len.into_raw()
    }
}
