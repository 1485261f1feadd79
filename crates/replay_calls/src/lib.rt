// The calls that the list of recorded answers has numbers for, over the proved library. Each puts the words of its answer, or stops.
#![tactic(auto)]

pub mod addresses;
pub mod answers;
pub mod bit_calls;
pub mod block_calls;
pub mod calls;
pub mod codes;
pub mod given;
pub mod header_calls;
pub mod headers;
pub mod split_calls;
pub mod usages;
pub mod write_calls;
