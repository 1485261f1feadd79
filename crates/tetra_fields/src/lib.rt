// Fields that headers share, and the numbers that stand for their cases. Takes the place of tetra-pdus/src/umac/{enums,fields,structs}.
#![tactic(auto)]

pub mod enums;
pub mod fields;
