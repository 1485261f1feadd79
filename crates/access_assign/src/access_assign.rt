// Clause 21.4.7.2, ACCESS-ASSIGN: 14 bits, header 2, field one 6 and field two 6.
ghost use Rattle.std.specs.Prelude.{◌≡◌, ◌<◌};
ghost use Rattle.tetra_core.specs.Refusal.{refused_by};
ghost use Rattle.codec.specs.Ahead.{Ready, ReadsNext};
ghost use Rattle.codec.specs.Row.{row_bits};
ghost use Rattle.access_assign.specs.AccessAssign.{assign_size, default_access_assign, is_dl_traffic, Says, read_access_assign, access_assign_at, header_number, field_one, field_two, access_assign_refusal, access_assign_row, access_assign_write, access_assign_written};

use crate::enums::access_assign_dl_usage::AccessAssignDlUsage;
use crate::enums::access_assign_ul_usage::AccessAssignUlUsage;
use crate::enums::access_code::AccessCode;
use crate::structs::access_field::AccessField;
use crate::structs::base_frame_length::BaseFrameLength;
use codec::encoded::Encode;
use codec::header::Header;
use codec::{Ahead, encoded, header};
use tetra_core::bitbuffer::{Cursor, Moved, Read};
use tetra_core::refusal::{Reason, Refusal};

// The bits of an ACCESS-ASSIGN.
const SIZE: usize = 14;

// The offset of field two.
const FIELD_TWO_AT: usize = 8;

// What the header is worth in the word of all three fields.
const HEADER: u64 = 1 << 12;

// The same of field one; field two is worth 1.
const FIELD_ONE: u64 = 1 << 6;

#[derive(Clone, Copy)]
pub enum AccessAssign {
    // Header 0: downlink usage common control, uplink access rights common only
    DownlinkCommonControlUplinkCommonOnly {
        access_field_1: AccessField,
        access_field_2: AccessField,
    },
    // Header 1: downlink usage defined by field one, uplink access rights common and assigned
    DownlinkDefinedUplinkCommonAndAssigned {
        downlink_usage_marker: AccessAssignDlUsage,
        access_field: AccessField,
    },
    // Header 2: downlink usage defined by field one, uplink access rights assigned only
    DownlinkDefinedUplinkAssignedOnly {
        downlink_usage_marker: AccessAssignDlUsage,
        access_field: AccessField,
    },
    // Header 3: downlink usage defined by field one, uplink access rights defined by field two
    DownlinkDefinedUplinkDefined {
        downlink_usage_marker: AccessAssignDlUsage,
        uplink_usage_marker: AccessAssignUlUsage,
    },
}

// Both subslots open to all, code A, in an access frame of four subslots.
pub fn default_access_assign() -> AccessAssign
    ensures { result ≡ default_access_assign }
{
    AccessAssign::DownlinkCommonControlUplinkCommonOnly {
        access_field_1: AccessField {
            access_code: AccessCode::AccessCodeA,
            base_frame_len: BaseFrameLength::Subslots4,
        },
        access_field_2: AccessField {
            access_code: AccessCode::AccessCodeA,
            base_frame_len: BaseFrameLength::Subslots4,
        },
    }
}

pub fn dl_is_traffic(a: AccessAssign) -> bool
    ensures { result ≡ is_dl_traffic a }
{
    match a {
        AccessAssign::DownlinkCommonControlUplinkCommonOnly {
            access_field_1: _,
            access_field_2: _,
        } => false,
        AccessAssign::DownlinkDefinedUplinkCommonAndAssigned {
            downlink_usage_marker,
            access_field: _,
        } => downlink_usage_marker.is_traffic(),
        AccessAssign::DownlinkDefinedUplinkAssignedOnly {
            downlink_usage_marker,
            access_field: _,
        } => downlink_usage_marker.is_traffic(),
        AccessAssign::DownlinkDefinedUplinkDefined {
            downlink_usage_marker,
            uplink_usage_marker: _,
        } => downlink_usage_marker.is_traffic(),
    }
}

// What the three fields of an ACCESS-ASSIGN say, of which field two begins at the offset second.
#[tactic(auto, unfolding(crate::specs::AccessAssign::access_assign_of))]
fn access_assign_of(header: u64, one: u64, two: u64, second: usize) -> Result<AccessAssign, Refusal>
    requires { (one < 64) × (two < 64) }
    ensures { Says header one two second result }
{
    match header {
        0 => Ok(AccessAssign::DownlinkCommonControlUplinkCommonOnly {
            access_field_1: AccessField::from_raw(one),
            access_field_2: AccessField::from_raw(two),
        }),
        1 => Ok(AccessAssign::DownlinkDefinedUplinkCommonAndAssigned {
            downlink_usage_marker: AccessAssignDlUsage::from_usage_marker(one as u8),
            access_field: AccessField::from_raw(two),
        }),
        2 => Ok(AccessAssign::DownlinkDefinedUplinkAssignedOnly {
            downlink_usage_marker: AccessAssignDlUsage::from_usage_marker(one as u8),
            access_field: AccessField::from_raw(two),
        }),
        _ => match AccessAssignUlUsage::from_usage_marker(two as u8) {
            Some(uplink_usage_marker) => {
                Ok(AccessAssign::DownlinkDefinedUplinkDefined {
                    downlink_usage_marker: AccessAssignDlUsage::from_usage_marker(one as u8),
                    uplink_usage_marker,
                })
            }
            None => Err(Refusal {
                reason: Reason::UsageMarker,
                offset: second,
            }),
        },
    }
}

// The ACCESS-ASSIGN that is ahead, and what is ahead after it.
fn read_access_assign(a: Ahead) -> Result<(Ahead, AccessAssign), Refusal>
    requires { Ready a assign_size }
    ensures { ReadsNext read_access_assign a assign_size result }
{
    let o = a.at;
    if a.left < SIZE {
        return Err(codec::fields_past_end(&[2, 6, 6], a.left, o));
    }
    let x = a.next_bits(SIZE);
    let assign = access_assign_of(x / HEADER % 4, x / FIELD_ONE % 64, x % 64, o + FIELD_TWO_AT)?;
    Ok((a.advance(SIZE), assign))
}

impl Header for AccessAssign {
    ghost reader = { read_access_assign };

    fn read(_s: &[u8], _c: Cursor, a: Ahead) -> Result<(Ahead, AccessAssign), Refusal> {
        read_access_assign(a)
    }
}

// Reads an ACCESS-ASSIGN at the cursor.
#[tactic(auto, unfolding(crate::specs::AccessAssign::access_assign_at))]
pub fn from_bitbuf(s: &[u8], c: Cursor) -> Read<AccessAssign>
    ensures { result ≡ access_assign_at s.now c }
{
    header::from_bitbuf(s, c)
}

// Why an ACCESS-ASSIGN is not written, if so.
pub fn access_assign_refusal(a: AccessAssign) -> Result<(), Reason>
    ensures { refused_by result ≡ access_assign_refusal a }
{
    match a {
        AccessAssign::DownlinkCommonControlUplinkCommonOnly {
            access_field_1: _,
            access_field_2: _,
        } => Ok(()),
        AccessAssign::DownlinkDefinedUplinkCommonAndAssigned {
            downlink_usage_marker,
            access_field: _,
        } => downlink_usage_marker.usage_refusal(),
        AccessAssign::DownlinkDefinedUplinkAssignedOnly {
            downlink_usage_marker,
            access_field: _,
        } => downlink_usage_marker.usage_refusal(),
        AccessAssign::DownlinkDefinedUplinkDefined {
            downlink_usage_marker,
            uplink_usage_marker,
        } => {
            downlink_usage_marker.usage_refusal()?;
            uplink_usage_marker.usage_refusal()
        }
    }
}

// The header of an ACCESS-ASSIGN, 2 bits.
fn header_number(a: AccessAssign) -> u64
    ensures { (result ≡ header_number a) × (result < 4) }
{
    match a {
        AccessAssign::DownlinkCommonControlUplinkCommonOnly {
            access_field_1: _,
            access_field_2: _,
        } => 0,
        AccessAssign::DownlinkDefinedUplinkCommonAndAssigned {
            downlink_usage_marker: _,
            access_field: _,
        } => 1,
        AccessAssign::DownlinkDefinedUplinkAssignedOnly {
            downlink_usage_marker: _,
            access_field: _,
        } => 2,
        AccessAssign::DownlinkDefinedUplinkDefined {
            downlink_usage_marker: _,
            uplink_usage_marker: _,
        } => 3,
    }
}

// Field one of an ACCESS-ASSIGN.
fn field_one(a: AccessAssign) -> u64
    ensures { (result ≡ field_one a) × (result < 256) }
{
    match a {
        AccessAssign::DownlinkCommonControlUplinkCommonOnly {
            access_field_1,
            access_field_2: _,
        } => access_field_1.into_raw(),
        AccessAssign::DownlinkDefinedUplinkCommonAndAssigned {
            downlink_usage_marker,
            access_field: _,
        } => downlink_usage_marker.to_usage_marker() as u64,
        AccessAssign::DownlinkDefinedUplinkAssignedOnly {
            downlink_usage_marker,
            access_field: _,
        } => downlink_usage_marker.to_usage_marker() as u64,
        AccessAssign::DownlinkDefinedUplinkDefined {
            downlink_usage_marker,
            uplink_usage_marker: _,
        } => downlink_usage_marker.to_usage_marker() as u64,
    }
}

// Field two of an ACCESS-ASSIGN.
fn field_two(a: AccessAssign) -> u64
    ensures { (result ≡ field_two a) × (result < 256) }
{
    match a {
        AccessAssign::DownlinkCommonControlUplinkCommonOnly {
            access_field_1: _,
            access_field_2,
        } => access_field_2.into_raw(),
        AccessAssign::DownlinkDefinedUplinkCommonAndAssigned {
            downlink_usage_marker: _,
            access_field,
        } => access_field.into_raw(),
        AccessAssign::DownlinkDefinedUplinkAssignedOnly {
            downlink_usage_marker: _,
            access_field,
        } => access_field.into_raw(),
        AccessAssign::DownlinkDefinedUplinkDefined {
            downlink_usage_marker: _,
            uplink_usage_marker,
        } => match uplink_usage_marker.to_usage_marker() {
            Some(marker) => marker as u64,
            // refused before it is written
            None => 0,
        },
    }
}

impl Encode for AccessAssign {
    ghost refused = { access_assign_refusal };

    ghost size = { λ _. assign_size };

    ghost bits = { λ a. row_bits (access_assign_row a) };

    fn refusal(self) -> Result<(), Reason> {
        access_assign_refusal(self)
    }

    fn len(self) -> usize {
        SIZE
    }

    fn word(self) -> u64 {
        header_number(self) * HEADER + (field_one(self) * FIELD_ONE + field_two(self))
    }
}

// Writes an ACCESS-ASSIGN at the cursor.
pub fn to_bitbuf(s: &mut [u8], c: Cursor, a: AccessAssign) -> Moved
    ensures { (result ≡ access_assign_write s.old c a) × (s.new ≡ access_assign_written s.old c a) }
{
    encoded::to_bitbuf(s, c, a)
}
