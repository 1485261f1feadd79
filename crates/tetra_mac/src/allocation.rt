// The channel allocation as a record of 9 words: allocation type, timeslots, direction, CLCH permission, cell change, carrier, monitoring
// pattern, whether there is a frame-18 pattern, frame-18 pattern.
ghost use Rattle.std.specs.Prelude.{◌≡◌, ◌≤◌, length};
ghost use Rattle.tetra_mac.specs.Reply.{replied, wrote, window};
ghost use Rattle.tetra_mac.specs.ChannelAllocation.{frame18_present, channel_allocation_words, channel_allocation_known, channel_allocation_value, channel_allocation_read_reply, channel_allocation_write_reply, channel_allocation_len_reply};
ghost use Rattle.tetra_mac.specs.Laws.ChannelAllocation.{channel_allocation-long, channel_allocation-placed};

use crate::record;
use crate::record::Record;
use channel_allocation::channel_allocation as allocation;
use channel_allocation::channel_allocation::ChanAllocElement;
use channel_allocation::enums::alloc_type::ChanAllocType;
use channel_allocation::enums::ul_dl_assignment::UlDlAssignment;
use tetra_core::bitbuffer::Cursor;

// The places of the record, and its words; a read has the cursor before them.
const ALLOC_TYPE: usize = 0;

const TIMESLOTS: usize = 1;

const DIRECTION: usize = 2;

const CLCH_PERMISSION: usize = 3;

const CELL_CHANGE: usize = 4;

const CARRIER: usize = 5;

const MON_PATTERN: usize = 6;

const HAS_FRAME_18: usize = 7;

const FRAME_18_PATTERN: usize = 8;

pub const WORDS: usize = 9;

fn frame18_present(p: Option<u8>) -> u64
    ensures { result ≡ frame18_present p }
{
    match p {
        None => 0,
        Some(_) => 1,
    }
}

// The words of a channel allocation.
pub fn channel_allocation_words(e: ChanAllocElement) -> [u64; 9]
    ensures { result ≡ channel_allocation_words e }
{
    let kind = e.alloc_type;
    let slots = e.ts_assigned;
    let direction = e.ul_dl_assigned;
    let pattern = e.frame18_mon_pattern;
    [
        kind.into_raw(),
        allocation::timeslots_into_raw(slots),
        direction.into_raw(),
        codec::bit(e.clch_permission),
        codec::bit(e.cell_change_flag),
        e.carrier_num as u64,
        e.mon_pattern as u64,
        frame18_present(pattern),
        allocation::frame18_into_raw(pattern),
    ]
}

// Whether words are long enough for a channel allocation and have no unknown code.
pub fn channel_allocation_known(words: &[u64]) -> bool
    ensures { result ≡ channel_allocation_known words.now }
{
    if words.len() < WORDS {
        return false;
    }
    if 3 < words[ALLOC_TYPE] {
        return false;
    }
    if 15 < words[TIMESLOTS] {
        return false;
    }
    if 3 < words[DIRECTION] {
        return false;
    }
    true
}

// The channel allocation of words whose codes are known.
pub fn channel_allocation_value(words: &[u64]) -> ChanAllocElement
    requires { 9 ≤ length words.now }
    ensures { result ≡ channel_allocation_value words.now }
{
    ChanAllocElement {
        alloc_type: ChanAllocType::from_raw(words[ALLOC_TYPE]),
        ts_assigned: allocation::timeslots_from_raw(words[TIMESLOTS]),
        ul_dl_assigned: UlDlAssignment::from_raw(words[DIRECTION]),
        clch_permission: words[CLCH_PERMISSION] != 0,
        cell_change_flag: words[CELL_CHANGE] != 0,
        carrier_num: record::number16(words[CARRIER]),
        mon_pattern: record::number8(words[MON_PATTERN]),
        frame18_mon_pattern: record::number_if(
            words[HAS_FRAME_18],
            record::number8(words[FRAME_18_PATTERN]),
        ),
    }
}

impl Record<WORDS> for ChanAllocElement {
    ghost words_of = { channel_allocation_words };

    ghost known = { channel_allocation_known };

    ghost value = { channel_allocation_value };

    fn words(h: ChanAllocElement) -> [u64; WORDS] {
        channel_allocation_words(h)
    }

    fn known(words: &[u64]) -> bool {
        channel_allocation_known(words)
    }

    fn value(words: &[u64]) -> ChanAllocElement {
        channel_allocation_value(words)
    }

    ghost long = { channel_allocation-long };

    ghost placed = { channel_allocation-placed 0 };
}

#[tactic(auto, unfolding(channel_allocation::specs::ChannelAllocation::channel_allocation_at))]
pub fn tetra_channel_allocation_read(
    s: &[u8],
    start: usize,
    pos: usize,
    end: usize,
    out: &mut [u64],
) -> u64
    ensures { replied result out.new ≡ channel_allocation_read_reply s.now (window start pos end) out.old }
{
    record::read::<WORDS, ChanAllocElement>(s, Cursor { start, pos, end }, out)
}

pub fn tetra_channel_allocation_write(
    s: &mut [u8],
    start: usize,
    pos: usize,
    end: usize,
    words: &[u64],
    out: &mut [u64],
) -> u64
    ensures { wrote result out.new s.new ≡ channel_allocation_write_reply s.old (window start pos end) words.now out.old }
{
    record::write::<WORDS, ChanAllocElement>(s, Cursor { start, pos, end }, words, out)
}

// The bits that a channel allocation is written as.
pub fn tetra_channel_allocation_len(words: &[u64], out: &mut [u64]) -> u64
    ensures { replied result out.new ≡ channel_allocation_len_reply words.now out.old }
{
    if out.len() < 1 {
        return record::MALFORMED;
    }
    if !channel_allocation_known(words) {
        return record::MALFORMED;
    }
    let e = channel_allocation_value(words);
    record::counted(out, allocation::compute_len(e))
}
