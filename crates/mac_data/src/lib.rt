// The MAC-DATA PDU. Takes the place of tetra-pdus/src/umac/pdus/mac_data.rs.
#![tactic(auto)]

pub mod mac_data;
