// The access field and its parts.
pub mod access_field;
pub mod base_frame_length;
