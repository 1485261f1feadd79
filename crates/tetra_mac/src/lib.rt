// The C interface: the calls of the bit buffer and of each header codec, on numbers and lent slices alone. A value crosses as a record, a
// list of words of 64 bits; the first lines of each file say what its words are. The calls of MAC-RESOURCE stand in
// tetra_resource, those of the downlink block in tetra_block.
#![tactic(auto)]

pub mod access;
pub mod address;
pub mod allocation;
pub mod assign;
pub mod bitbuffer;
pub mod data;
pub mod record;
pub mod slotgrant;
