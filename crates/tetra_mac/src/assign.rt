// The ACCESS-ASSIGN as a record of 5 words: header, and two words for each field. An access field is its access code and its base
// frame-length code, a usage is its kind and its traffic number.
ghost use Rattle.std.specs.Prelude.{◌≡◌, [], ◌∷◌, ◌≤◌, length};
ghost use Rattle.tetra_mac.specs.Reply.{replied, wrote, window, word};
ghost use Rattle.tetra_mac.specs.AccessAssign.{field_words, dl_kind, dl_traffic, dl_words, ul_kind, ul_traffic, ul_words, field_known, field_value, dl_value, ul_value, one_known, two_known, access_assign_words, access_assign_known, access_assign_value, access_assign_read_reply, access_assign_write_reply};
ghost use Rattle.tetra_mac.specs.Laws.AccessAssign.{access_assign_long, access_assign_placed};

use crate::record;
use crate::record::Record;
use access_assign::access_assign::AccessAssign;
use access_assign::enums::access_assign_dl_usage::AccessAssignDlUsage;
use access_assign::enums::access_assign_ul_usage::AccessAssignUlUsage;
use access_assign::enums::access_code::AccessCode;
use access_assign::structs::access_field::AccessField;
use access_assign::structs::base_frame_length::BaseFrameLength;
use tetra_core::bitbuffer::Cursor;

// The places of the record, and its words; a read has the cursor before them.
const HEADER: usize = 0;

const ONE_FIRST: usize = 1;

const ONE_SECOND: usize = 2;

const TWO_FIRST: usize = 3;

const TWO_SECOND: usize = 4;

const WORDS: usize = 5;

fn field_words(f: AccessField) -> [u64; 2]
    ensures { result ≡ field_words f }
{
    let code = f.access_code;
    let len = f.base_frame_len;
    [code.into_raw(), len.into_raw()]
}

fn dl_kind(u: AccessAssignDlUsage) -> u64
    ensures { result ≡ dl_kind u }
{
    match u {
        AccessAssignDlUsage::Unallocated => 0,
        AccessAssignDlUsage::AssignedControl => 1,
        AccessAssignDlUsage::CommonControl => 2,
        AccessAssignDlUsage::CommonAndAssigned => 3,
        AccessAssignDlUsage::Traffic(_) => 4,
    }
}

fn dl_traffic(u: AccessAssignDlUsage) -> u64
    ensures { result ≡ dl_traffic u }
{
    match u {
        AccessAssignDlUsage::Unallocated => 0,
        AccessAssignDlUsage::AssignedControl => 0,
        AccessAssignDlUsage::CommonControl => 0,
        AccessAssignDlUsage::CommonAndAssigned => 0,
        AccessAssignDlUsage::Traffic(n) => n as u64,
    }
}

fn dl_words(u: AccessAssignDlUsage) -> [u64; 2]
    ensures { result ≡ dl_words u }
{
    [dl_kind(u), dl_traffic(u)]
}

fn ul_kind(u: AccessAssignUlUsage) -> u64
    ensures { result ≡ ul_kind u }
{
    match u {
        AccessAssignUlUsage::CommonOnly => 0,
        AccessAssignUlUsage::CommonAndAssigned => 1,
        AccessAssignUlUsage::AssignedOnly => 2,
        AccessAssignUlUsage::Unallocated => 3,
        AccessAssignUlUsage::Traffic(_) => 4,
    }
}

fn ul_traffic(u: AccessAssignUlUsage) -> u64
    ensures { result ≡ ul_traffic u }
{
    match u {
        AccessAssignUlUsage::CommonOnly => 0,
        AccessAssignUlUsage::CommonAndAssigned => 0,
        AccessAssignUlUsage::AssignedOnly => 0,
        AccessAssignUlUsage::Unallocated => 0,
        AccessAssignUlUsage::Traffic(n) => n as u64,
    }
}

fn ul_words(u: AccessAssignUlUsage) -> [u64; 2]
    ensures { result ≡ ul_words u }
{
    [ul_kind(u), ul_traffic(u)]
}

fn field_known(code: u64, len: u64) -> bool
    ensures { result ≡ field_known code len }
{
    if 3 < code {
        return false;
    }
    len < 16
}

fn field_value(code: u64, len: u64) -> AccessField
    ensures { result ≡ field_value code len }
{
    AccessField {
        access_code: AccessCode::from_raw(code),
        base_frame_len: BaseFrameLength::from_raw(len),
    }
}

fn dl_value(kind: u64, traffic: u64) -> AccessAssignDlUsage
    ensures { result ≡ dl_value kind traffic }
{
    match kind {
        0 => AccessAssignDlUsage::Unallocated,
        1 => AccessAssignDlUsage::AssignedControl,
        2 => AccessAssignDlUsage::CommonControl,
        3 => AccessAssignDlUsage::CommonAndAssigned,
        _ => AccessAssignDlUsage::Traffic(record::number8(traffic)),
    }
}

fn ul_value(kind: u64, traffic: u64) -> AccessAssignUlUsage
    ensures { result ≡ ul_value kind traffic }
{
    match kind {
        0 => AccessAssignUlUsage::CommonOnly,
        1 => AccessAssignUlUsage::CommonAndAssigned,
        2 => AccessAssignUlUsage::AssignedOnly,
        3 => AccessAssignUlUsage::Unallocated,
        _ => AccessAssignUlUsage::Traffic(record::number8(traffic)),
    }
}

// Whether field one of a header is known: an access field under header 0, else a downlink usage.
fn one_known(header: u64, a: u64, b: u64) -> bool
    ensures { result ≡ one_known header a b }
{
    match header {
        0 => field_known(a, b),
        1 => a < 5,
        2 => a < 5,
        3 => a < 5,
        _ => false,
    }
}

// Whether field two of a header is known: an uplink usage under header 3, else an access field.
fn two_known(header: u64, a: u64, b: u64) -> bool
    ensures { result ≡ two_known header a b }
{
    if header == 3 {
        return a < 5;
    }
    field_known(a, b)
}

// A header and the words of its fields.
fn joined(header: u64, one: [u64; 2], two: [u64; 2]) -> [u64; 5]
    ensures { result ≡ header ∷ word one 0 ∷ word one 1 ∷ word two 0 ∷ word two 1 ∷ [] }
{
    [header, one[0], one[1], two[0], two[1]]
}

impl Record<WORDS> for AccessAssign {
    ghost words_of = { access_assign_words };

    ghost known = { access_assign_known };

    ghost value = { access_assign_value };

    fn words(a: AccessAssign) -> [u64; WORDS] {
        match a {
            AccessAssign::DownlinkCommonControlUplinkCommonOnly {
                access_field_1,
                access_field_2,
            } => joined(0, field_words(access_field_1), field_words(access_field_2)),
            AccessAssign::DownlinkDefinedUplinkCommonAndAssigned {
                downlink_usage_marker,
                access_field,
            } => joined(
                1,
                dl_words(downlink_usage_marker),
                field_words(access_field),
            ),
            AccessAssign::DownlinkDefinedUplinkAssignedOnly {
                downlink_usage_marker,
                access_field,
            } => joined(
                2,
                dl_words(downlink_usage_marker),
                field_words(access_field),
            ),
            AccessAssign::DownlinkDefinedUplinkDefined {
                downlink_usage_marker,
                uplink_usage_marker,
            } => joined(
                3,
                dl_words(downlink_usage_marker),
                ul_words(uplink_usage_marker),
            ),
        }
    }

    fn known(words: &[u64]) -> bool {
        if words.len() < WORDS {
            return false;
        }
        if !one_known(words[HEADER], words[ONE_FIRST], words[ONE_SECOND]) {
            return false;
        }
        two_known(words[HEADER], words[TWO_FIRST], words[TWO_SECOND])
    }

    fn value(words: &[u64]) -> AccessAssign {
        let header = words[HEADER];
        let a = words[ONE_FIRST];
        let b = words[ONE_SECOND];
        let c = words[TWO_FIRST];
        let d = words[TWO_SECOND];
        match header {
            0 => AccessAssign::DownlinkCommonControlUplinkCommonOnly {
                access_field_1: field_value(a, b),
                access_field_2: field_value(c, d),
            },
            1 => AccessAssign::DownlinkDefinedUplinkCommonAndAssigned {
                downlink_usage_marker: dl_value(a, b),
                access_field: field_value(c, d),
            },
            2 => AccessAssign::DownlinkDefinedUplinkAssignedOnly {
                downlink_usage_marker: dl_value(a, b),
                access_field: field_value(c, d),
            },
            _ => AccessAssign::DownlinkDefinedUplinkDefined {
                downlink_usage_marker: dl_value(a, b),
                uplink_usage_marker: ul_value(c, d),
            },
        }
    }

    ghost long = { access_assign_long };

    ghost placed = { access_assign_placed };
}

#[tactic(auto, unfolding(access_assign::specs::AccessAssign::access_assign_at))]
pub fn tetra_access_assign_read(
    s: &[u8],
    start: usize,
    pos: usize,
    end: usize,
    out: &mut [u64],
) -> u64
    ensures { replied result out.new ≡ access_assign_read_reply s.now (window start pos end) out.old }
{
    record::read::<WORDS, AccessAssign>(s, Cursor { start, pos, end }, out)
}

pub fn tetra_access_assign_write(
    s: &mut [u8],
    start: usize,
    pos: usize,
    end: usize,
    words: &[u64],
    out: &mut [u64],
) -> u64
    ensures { wrote result out.new s.new ≡ access_assign_write_reply s.old (window start pos end) words.now out.old }
{
    record::write::<WORDS, AccessAssign>(s, Cursor { start, pos, end }, words, out)
}
