// Each enum of a field, with the number of each of its cases.
pub mod basic_slotgrant_cap_alloc;
pub mod basic_slotgrant_granting_delay;
pub mod reservation_requirement;
pub mod uplink_addr_type;
