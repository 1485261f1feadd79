// The MAC-ACCESS PDU. Takes the place of tetra-pdus/src/umac/pdus/mac_access.rs.
#![tactic(auto)]

pub mod mac_access;
