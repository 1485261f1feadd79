// Bits of lent bytes by whole bytes and words. Bit 0 is the most significant bit of byte 0.
#![tactic(auto)]

pub mod span;
pub mod word;
