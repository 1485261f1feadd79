// Clause 21.5.6, basic slot granting: 8 bits, capacity allocation 4 and granting delay 4.
ghost use Rattle.std.specs.Prelude.{◌≡◌};
ghost use Rattle.tetra_core.specs.Refusal.{refused_by};
ghost use Rattle.codec.specs.Ahead.{Ready, ReadsNext};
ghost use Rattle.codec.specs.Row.{row_bits, RowIs};
ghost use Rattle.tetra_fields.specs.BasicSlotgrant.{slotgrant_size, read_slotgrant, slotgrant_at, slotgrant_row, slotgrant_refusal, slotgrant_write, slotgrant_written};

use crate::enums::basic_slotgrant_cap_alloc::BasicSlotgrantCapAlloc;
use crate::enums::basic_slotgrant_granting_delay::BasicSlotgrantGrantingDelay;
use codec::encoded::Encode;
use codec::header::Header;
use codec::{Ahead, encoded, header};
use tetra_core::bitbuffer::{Cursor, Moved, Read};
use tetra_core::refusal::{Reason, Refusal};

// The bits of a slot grant.
const SIZE: usize = 8;

// What the capacity is worth in the word of both fields; the delay is worth 1.
const CAPACITY: u64 = 1 << 4;

#[derive(Clone, Copy)]
pub struct BasicSlotgrant {
    pub capacity_allocation: BasicSlotgrantCapAlloc,
    pub granting_delay: BasicSlotgrantGrantingDelay,
}

// The slot grant that is ahead, and what is ahead after it.
pub fn read_slotgrant(a: Ahead) -> Result<(Ahead, BasicSlotgrant), Refusal>
    requires { Ready a slotgrant_size }
    ensures { ReadsNext read_slotgrant a slotgrant_size result }
{
    if a.left < SIZE {
        return Err(codec::fields_past_end(&[4, 4], a.left, a.at));
    }
    let x = a.next_bits(SIZE);
    let grant = BasicSlotgrant {
        capacity_allocation: BasicSlotgrantCapAlloc::from_raw(x / CAPACITY % 16),
        granting_delay: BasicSlotgrantGrantingDelay::from_raw(x % 16),
    };
    Ok((a.advance(SIZE), grant))
}

impl Header for BasicSlotgrant {
    ghost reader = { read_slotgrant };

    fn read(_s: &[u8], _c: Cursor, a: Ahead) -> Result<(Ahead, BasicSlotgrant), Refusal> {
        read_slotgrant(a)
    }
}

// Reads a slot grant at the cursor.
#[tactic(auto, unfolding(crate::specs::BasicSlotgrant::slotgrant_at))]
pub fn from_bitbuf(s: &[u8], c: Cursor) -> Read<BasicSlotgrant>
    ensures { result ≡ slotgrant_at s.now c }
{
    header::from_bitbuf(s, c)
}

// Why a slot grant is not written, if so.
pub fn slotgrant_refusal(g: BasicSlotgrant) -> Result<(), Reason>
    ensures { refused_by result ≡ slotgrant_refusal g }
{
    let delay = g.granting_delay;
    match delay {
        BasicSlotgrantGrantingDelay::CapAllocAtNextOpportunity => Ok(()),
        BasicSlotgrantGrantingDelay::DelayNOpportunities(n) => {
            if n < 1 {
                return Err(Reason::DelayCount);
            }
            if 13 < n {
                return Err(Reason::DelayCount);
            }
            Ok(())
        }
        BasicSlotgrantGrantingDelay::AllocStartsAtOpportunityInFr18 => Ok(()),
        BasicSlotgrantGrantingDelay::WaitForAnotherSlotgrantMessage => Ok(()),
    }
}

// The 8 bits of a slot grant as one number.
pub fn slotgrant_word(g: BasicSlotgrant) -> u64
    requires { slotgrant_refusal g ≡ 0 }
    ensures { RowIs (slotgrant_row g) slotgrant_size result }
{
    let capacity = g.capacity_allocation;
    let delay = g.granting_delay;
    capacity.into_raw() * CAPACITY + delay.into_raw()
}

impl Encode for BasicSlotgrant {
    ghost refused = { slotgrant_refusal };

    ghost size = { λ _. slotgrant_size };

    ghost bits = { λ g. row_bits (slotgrant_row g) };

    fn refusal(self) -> Result<(), Reason> {
        slotgrant_refusal(self)
    }

    fn len(self) -> usize {
        SIZE
    }

    fn word(self) -> u64 {
        slotgrant_word(self)
    }
}

// Writes a slot grant at the cursor.
pub fn to_bitbuf(s: &mut [u8], c: Cursor, g: BasicSlotgrant) -> Moved
    ensures { (result ≡ slotgrant_write s.old c g) × (s.new ≡ slotgrant_written s.old c g) }
{
    encoded::to_bitbuf(s, c, g)
}
