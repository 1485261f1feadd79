// The downlink block's rules: its definitions, their laws and demand 3 stand in specs. Here are the types and the numbers that these share
// with the code; there is no function.
#![tactic(auto)]

pub mod extent;
pub mod to_add;

// The most bits that a block can have.
pub const MOST_BITS: usize = 488;

// The bits of a null PDU, and the fewest that a PDU can have: those that tell where it ends.
pub const LEAST_BITS: usize = 16;
