// The ACCESS-ASSIGN PDU. Takes the place of tetra-pdus/src/umac/pdus/access_assign.rs and of the enums and structs that it alone uses.
#![tactic(auto)]

pub mod access_assign;
pub mod enums;
pub mod structs;
