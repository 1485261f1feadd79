// Elements of several fields.
pub mod basic_slotgrant;
pub mod uplink_address;
pub mod uplink_head;
