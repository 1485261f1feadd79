// The channel allocation, an element that MAC-RESOURCE carries. Takes the place of tetra-pdus/src/umac/fields/channel_allocation.rs and of the
// enums that it alone uses.
#![tactic(auto)]

pub mod channel_allocation;
pub mod enums;
