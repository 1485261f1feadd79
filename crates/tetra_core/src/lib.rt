// What every layer above stands on: bits of lent bytes through a window, refusals, quantities and addresses.
#![tactic(auto)]

pub mod address;
pub mod bitarr;
pub mod bitbuffer;
pub mod quantity;
pub mod refusal;
