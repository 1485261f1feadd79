// The slot grant as a record of 3 words: capacity code, delay kind, delay count.
ghost use Rattle.std.specs.Prelude.{◌≡◌, ◌≤◌, length};
ghost use Rattle.tetra_mac.specs.Reply.{replied, wrote, window};
ghost use Rattle.tetra_mac.specs.Slotgrant.{delay_kind, delay_count, delay_value, slotgrant_words, slotgrant_known, slotgrant_value, slotgrant_read_reply, slotgrant_write_reply};
ghost use Rattle.tetra_mac.specs.Laws.Slotgrant.{slotgrant_long, slotgrant_placed};

use crate::record;
use crate::record::Record;
use tetra_core::bitbuffer::Cursor;
use tetra_fields::enums::basic_slotgrant_cap_alloc::BasicSlotgrantCapAlloc;
use tetra_fields::enums::basic_slotgrant_granting_delay::BasicSlotgrantGrantingDelay;
use tetra_fields::fields::basic_slotgrant::BasicSlotgrant;

// The places of the record, and its words; a read has the cursor before them.
const CAPACITY: usize = 0;

const DELAY_KIND: usize = 1;

const DELAY_COUNT: usize = 2;

pub const WORDS: usize = 3;

fn delay_kind(d: BasicSlotgrantGrantingDelay) -> u64
    ensures { result ≡ delay_kind d }
{
    match d {
        BasicSlotgrantGrantingDelay::CapAllocAtNextOpportunity => 0,
        BasicSlotgrantGrantingDelay::DelayNOpportunities(_) => 1,
        BasicSlotgrantGrantingDelay::AllocStartsAtOpportunityInFr18 => 2,
        BasicSlotgrantGrantingDelay::WaitForAnotherSlotgrantMessage => 3,
    }
}

fn delay_count(d: BasicSlotgrantGrantingDelay) -> u64
    ensures { result ≡ delay_count d }
{
    match d {
        BasicSlotgrantGrantingDelay::CapAllocAtNextOpportunity => 0,
        BasicSlotgrantGrantingDelay::DelayNOpportunities(n) => n as u64,
        BasicSlotgrantGrantingDelay::AllocStartsAtOpportunityInFr18 => 0,
        BasicSlotgrantGrantingDelay::WaitForAnotherSlotgrantMessage => 0,
    }
}

// The delay of a kind, of which only the second has a count.
fn delay_value(kind: u64, count: u8) -> BasicSlotgrantGrantingDelay
    ensures { result ≡ delay_value kind count }
{
    match kind {
        0 => BasicSlotgrantGrantingDelay::CapAllocAtNextOpportunity,
        1 => BasicSlotgrantGrantingDelay::DelayNOpportunities(count),
        2 => BasicSlotgrantGrantingDelay::AllocStartsAtOpportunityInFr18,
        _ => BasicSlotgrantGrantingDelay::WaitForAnotherSlotgrantMessage,
    }
}

// The words of a slot grant.
pub fn slotgrant_words(g: BasicSlotgrant) -> [u64; 3]
    ensures { result ≡ slotgrant_words g }
{
    let capacity = g.capacity_allocation;
    let delay = g.granting_delay;
    [capacity.into_raw(), delay_kind(delay), delay_count(delay)]
}

// Whether words are long enough for a slot grant and have no unknown code.
pub fn slotgrant_known(words: &[u64]) -> bool
    ensures { result ≡ slotgrant_known words.now }
{
    if words.len() < WORDS {
        return false;
    }
    if 15 < words[CAPACITY] {
        return false;
    }
    if 3 < words[DELAY_KIND] {
        return false;
    }
    true
}

// The slot grant of words whose codes are known.
pub fn slotgrant_value(words: &[u64]) -> BasicSlotgrant
    requires { 3 ≤ length words.now }
    ensures { result ≡ slotgrant_value words.now }
{
    BasicSlotgrant {
        capacity_allocation: BasicSlotgrantCapAlloc::from_raw(words[CAPACITY]),
        granting_delay: delay_value(words[DELAY_KIND], record::number8(words[DELAY_COUNT])),
    }
}

impl Record<WORDS> for BasicSlotgrant {
    ghost words_of = { slotgrant_words };

    ghost known = { slotgrant_known };

    ghost value = { slotgrant_value };

    fn words(h: BasicSlotgrant) -> [u64; WORDS] {
        slotgrant_words(h)
    }

    fn known(words: &[u64]) -> bool {
        slotgrant_known(words)
    }

    fn value(words: &[u64]) -> BasicSlotgrant {
        slotgrant_value(words)
    }

    ghost long = { slotgrant_long };

    ghost placed = { slotgrant_placed };
}

#[tactic(auto, unfolding(tetra_fields::specs::BasicSlotgrant::slotgrant_at))]
pub fn tetra_slotgrant_read(s: &[u8], start: usize, pos: usize, end: usize, out: &mut [u64]) -> u64
    ensures { replied result out.new ≡ slotgrant_read_reply s.now (window start pos end) out.old }
{
    record::read::<WORDS, BasicSlotgrant>(s, Cursor { start, pos, end }, out)
}

pub fn tetra_slotgrant_write(
    s: &mut [u8],
    start: usize,
    pos: usize,
    end: usize,
    words: &[u64],
    out: &mut [u64],
) -> u64
    ensures { wrote result out.new s.new ≡ slotgrant_write_reply s.old (window start pos end) words.now out.old }
{
    record::write::<WORDS, BasicSlotgrant>(s, Cursor { start, pos, end }, words, out)
}
