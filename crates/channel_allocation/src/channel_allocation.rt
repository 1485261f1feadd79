// Clause 21.5.2, channel allocation: 25 bits, or 27 with monitoring pattern 0. An extended carrier and the augmented direction are refused.
ghost use Rattle.std.specs.Prelude.{◌≡◌, ◌≤◌, ◌<◌};
ghost use Rattle.tetra_core.specs.Refusal.{refused_by};
ghost use Rattle.codec.specs.Ahead.{Ready, ReadsNext};
ghost use Rattle.codec.specs.Row.{RowIs};
ghost use Rattle.codec.specs.Piece.{Holds};
ghost use Rattle.channel_allocation.specs.ChannelAllocation.{timeslots_of, timeslots_number, frame18_number, mon_patterns_most, read_mon_patterns, element_of, read_channel_allocation, channel_allocation_at, frame18_refusal, len_refusal, channel_allocation_refusal, head_len, head_row, channel_allocation_bits, channel_allocation_most, channel_allocation_len, compute_len, channel_allocation_write, channel_allocation_written};

use crate::enums::alloc_type::ChanAllocType;
use crate::enums::ul_dl_assignment::UlDlAssignment;
use codec::encoded::Encode;
use codec::header::Header;
use codec::{Ahead, encoded, header};
use tetra_core::bitbuffer::{Cursor, Moved, Read};
use tetra_core::quantity::Bits;
use tetra_core::refusal::{Reason, Refusal};

// The bits up to the extension flag, and those of the whole element: most with monitoring pattern 0.
const HEAD_BITS: usize = 23;

const LEAST: usize = HEAD_BITS + 2;

const MOST: usize = HEAD_BITS + 4;

// What a field is worth in the first 23 bits, whose last one is the extension flag.
const ALLOC_TYPE: u64 = 1 << 21;

const TIMESLOTS: u64 = 1 << 17;

const DIRECTION: u64 = 1 << 15;

const CLCH_PERMISSION: u64 = 1 << 14;

const CELL_CHANGE: u64 = 1 << 13;

const CARRIER: u64 = 1 << 1;

const NO_EXTENSION: u64 = 0;

// Where the fields start that are refused when read.
const DIRECTION_AT: usize = 6;

const EXTENSION_AT: usize = 22;

// What a slot is worth in the timeslots, whose last one is slot 4.
const SLOT_1: u64 = 1 << 3;

const SLOT_2: u64 = 1 << 2;

const SLOT_3: u64 = 1 << 1;

// The timeslots assigned, slot 1 first.
#[derive(Clone, Copy)]
pub struct TimeslotsAssigned {
    pub ts1: bool,
    pub ts2: bool,
    pub ts3: bool,
    pub ts4: bool,
}

// Each field with its bits.
#[derive(Clone, Copy)]
pub struct ChanAllocElement {
    // 2
    pub alloc_type: ChanAllocType,
    // 4
    pub ts_assigned: TimeslotsAssigned,
    // 2
    pub ul_dl_assigned: UlDlAssignment,
    // 1
    pub clch_permission: bool,
    // 1
    pub cell_change_flag: bool,
    // 12
    pub carrier_num: u16,
    // 2, after the extension flag
    pub mon_pattern: u8,
    // 2 where mon_pattern is 0
    pub frame18_mon_pattern: Option<u8>,
}

// The monitoring patterns as a part of a channel allocation.
#[derive(Clone, Copy)]
struct MonPatterns {
    pub mon_pattern: u8,
    pub frame18_mon_pattern: Option<u8>,
}

// The timeslots of a field's bits, the low 4 of v.
pub fn timeslots_from_raw(v: u64) -> TimeslotsAssigned
    ensures { result ≡ timeslots_of v }
{
    TimeslotsAssigned {
        ts1: v / SLOT_1 % 2 != 0,
        ts2: v / SLOT_2 % 2 != 0,
        ts3: v / SLOT_3 % 2 != 0,
        ts4: v % 2 != 0,
    }
}

pub fn timeslots_into_raw(t: TimeslotsAssigned) -> u64
    ensures { (result ≡ timeslots_number t) × (result < 16) }
{
    codec::bit(t.ts1) * SLOT_1
        + codec::bit(t.ts2) * SLOT_2
        + codec::bit(t.ts3) * SLOT_3
        + codec::bit(t.ts4)
}

pub fn frame18_into_raw(p: Option<u8>) -> u64
    ensures { (result ≡ frame18_number p) × (result < 256) }
{
    match p {
        None => 0,
        Some(v) => v as u64,
    }
}

// The monitoring pattern that is ahead, and the frame-18 pattern where it is 0; and what is ahead after them.
fn read_mon_patterns(a: Ahead) -> Result<(Ahead, MonPatterns), Refusal>
    requires { Ready a mon_patterns_most }
    ensures { ReadsNext read_mon_patterns a mon_patterns_most result }
{
    if a.left < 2 {
        return Err(codec::field_past_end(a.at));
    }
    let pattern = a.next_bits(2);
    let b = a.advance(2);
    if pattern != 0 {
        let alone = MonPatterns {
            mon_pattern: pattern as u8,
            frame18_mon_pattern: None,
        };
        return Ok((b, alone));
    }
    if b.left < 2 {
        return Err(codec::field_past_end(b.at));
    }
    let v = b.next_bits(2);
    let both = MonPatterns {
        mon_pattern: pattern as u8,
        frame18_mon_pattern: Some(v as u8),
    };
    Ok((b.advance(2), both))
}

// The channel allocation whose first 23 bits are the number x, with its patterns.
fn element_of(x: u64, p: MonPatterns) -> ChanAllocElement
    ensures { result ≡ element_of x p }
{
    let frame18_mon_pattern = p.frame18_mon_pattern;
    ChanAllocElement {
        alloc_type: ChanAllocType::from_raw(x / ALLOC_TYPE % 4),
        ts_assigned: timeslots_from_raw(x / TIMESLOTS % 16),
        ul_dl_assigned: UlDlAssignment::from_raw(x / DIRECTION % 4),
        clch_permission: x / CLCH_PERMISSION % 2 != 0,
        cell_change_flag: x / CELL_CHANGE % 2 != 0,
        carrier_num: (x / CARRIER % 4096) as u16,
        mon_pattern: p.mon_pattern,
        frame18_mon_pattern,
    }
}

// The channel allocation that is ahead, and what is ahead after it.
pub fn read_channel_allocation(a: Ahead) -> Result<(Ahead, ChanAllocElement), Refusal>
    requires { Ready a channel_allocation_most }
    ensures { ReadsNext read_channel_allocation a channel_allocation_most result }
{
    if a.left < HEAD_BITS {
        return Err(codec::fields_past_end(&[2, 4, 2, 1, 1, 12, 1], a.left, a.at));
    }
    let x = a.next_bits(HEAD_BITS);
    if x % 2 != 0 {
        return Err(Refusal {
            reason: Reason::ExtendedCarrier,
            offset: a.at + EXTENSION_AT,
        });
    }
    let (after, patterns) = read_mon_patterns(a.advance(HEAD_BITS))?;
    if x / DIRECTION % 4 == 0 {
        return Err(Refusal {
            reason: Reason::Augmented,
            offset: a.at + DIRECTION_AT,
        });
    }
    Ok((after, element_of(x, patterns)))
}

impl Header for ChanAllocElement {
    ghost reader = { read_channel_allocation };

    fn read(_s: &[u8], _c: Cursor, a: Ahead) -> Result<(Ahead, ChanAllocElement), Refusal> {
        read_channel_allocation(a)
    }
}

// Reads a channel allocation at the cursor.
#[tactic(auto, unfolding(crate::specs::ChannelAllocation::channel_allocation_at))]
pub fn from_bitbuf(s: &[u8], c: Cursor) -> Read<ChanAllocElement>
    ensures { result ≡ channel_allocation_at s.now c }
{
    header::from_bitbuf(s, c)
}

// Why a frame-18 pattern is not written beside a monitoring pattern, if so.
fn frame18_refusal(mon_pattern: u8, p: Option<u8>) -> Result<(), Reason>
    ensures { refused_by result ≡ frame18_refusal mon_pattern p }
{
    if mon_pattern != 0 {
        return Ok(());
    }
    match p {
        None => Err(Reason::NoFrame18Pattern),
        Some(v) => {
            if 3 < v {
                return Err(Reason::ValueTooWide);
            }
            Ok(())
        }
    }
}

// Why the length of a channel allocation is not counted, if so.
pub fn len_refusal(e: ChanAllocElement) -> Result<(), Reason>
    ensures { refused_by result ≡ len_refusal e }
{
    let direction = e.ul_dl_assigned;
    match direction {
        UlDlAssignment::Augmented => Err(Reason::Augmented),
        UlDlAssignment::Dl => Ok(()),
        UlDlAssignment::Ul => Ok(()),
        UlDlAssignment::Both => Ok(()),
    }
}

// Why a channel allocation is not written, if so.
pub fn channel_allocation_refusal(e: ChanAllocElement) -> Result<(), Reason>
    ensures { refused_by result ≡ channel_allocation_refusal e }
{
    if 4095 < e.carrier_num {
        return Err(Reason::ValueTooWide);
    }
    if 3 < e.mon_pattern {
        return Err(Reason::ValueTooWide);
    }
    let p = e.frame18_mon_pattern;
    frame18_refusal(e.mon_pattern, p)?;
    len_refusal(e)
}

// The bits that a channel allocation takes up, in the augmented direction too.
pub fn allocation_len(e: ChanAllocElement) -> usize
    ensures { (result ≡ channel_allocation_len e) × (result ≤ channel_allocation_most) }
{
    if e.mon_pattern == 0 { MOST } else { LEAST }
}

// The bits that a channel allocation is written as.
pub fn compute_len(e: ChanAllocElement) -> Result<Bits, Reason>
    ensures { result ≡ compute_len e }
{
    len_refusal(e)?;
    Ok(Bits(allocation_len(e) as u16))
}

// The first 23 bits of a channel allocation as one number.
fn head_word(e: ChanAllocElement) -> u64
    requires { channel_allocation_refusal e ≡ 0 }
    ensures { RowIs (head_row e) head_len result }
{
    let alloc_type = e.alloc_type;
    let ts_assigned = e.ts_assigned;
    let ul_dl_assigned = e.ul_dl_assigned;
    let a = alloc_type.into_raw();
    let t = timeslots_into_raw(ts_assigned);
    let d = ul_dl_assigned.into_raw();
    let c = codec::bit(e.clch_permission);
    let f = codec::bit(e.cell_change_flag);
    let n = e.carrier_num as u64;
    a * ALLOC_TYPE
        + (t * TIMESLOTS
            + (d * DIRECTION
                + (c * CLCH_PERMISSION + (f * CELL_CHANGE + (n * CARRIER + NO_EXTENSION)))))
}

// The 25 or 27 bits of a channel allocation as one number.
pub fn channel_allocation_word(e: ChanAllocElement) -> u64
    requires { channel_allocation_refusal e ≡ 0 }
    ensures { Holds (channel_allocation_bits e) (channel_allocation_len e) (record { value = result; bits = channel_allocation_len e }) }
{
    let x = head_word(e) * 4 + e.mon_pattern as u64;
    if e.mon_pattern == 0 {
        let p = e.frame18_mon_pattern;
        return x * 4 + frame18_into_raw(p);
    }
    x
}

impl Encode for ChanAllocElement {
    ghost refused = { channel_allocation_refusal };

    ghost size = { channel_allocation_len };

    ghost bits = { channel_allocation_bits };

    fn refusal(self) -> Result<(), Reason> {
        channel_allocation_refusal(self)
    }

    fn len(self) -> usize {
        allocation_len(self)
    }

    fn word(self) -> u64 {
        channel_allocation_word(self)
    }
}

// Writes a channel allocation at the cursor.
pub fn to_bitbuf(s: &mut [u8], c: Cursor, e: ChanAllocElement) -> Moved
    ensures { (result ≡ channel_allocation_write s.old c e) × (s.new ≡ channel_allocation_written s.old c e) }
{
    encoded::to_bitbuf(s, c, e)
}
