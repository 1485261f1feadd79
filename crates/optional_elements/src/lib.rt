// The elements that a downlink header may carry, each behind a flag of its own: power control, slot granting and channel allocation.
#![tactic(auto)]

pub mod allocation;
pub mod elements;
pub mod grant_and_allocation;
mod optional;
pub mod power_control;
pub mod slot_granting;
