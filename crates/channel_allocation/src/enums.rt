// Each enum of a field, with the number of each of its cases.
pub mod alloc_type;
pub mod ul_dl_assignment;
