// A walk over a lent block. The work is `step_from` and `rest_from`, which take plain parameters; the functions over the struct are thin.
#![tactic(auto)]

ghost use Rattle.std.specs.Prelude.{◌≡◌, ◌-◌};
ghost use Rattle.block_walk.specs.Positions.{NullFits, after_end, after_entry, step_from, rest_from, begun, moved};

use block_rules::LEAST_BITS;
use mac_block::reader;
use mac_block::reader::{BlockEntry, RefusedPdu};
use tetra_core::refusal::Refusal;

// Where a walk is. A bit alone would not say it: behind a null PDU the walk has ended, and bits that look like another PDU may follow.
#[derive(Clone, Copy)]
pub enum Position {
    // It goes on from this bit.
    At(usize),
    // It has ended, and the rest begins at this bit.
    Ended(usize),
}

// What a step of a walk answers, and the position after it.
#[derive(Clone, Copy)]
pub struct WalkStep {
    pub position: Position,
    pub answer: Result<Option<BlockEntry>, Refusal>,
}

#[tactic(auto, unfolding(crate::specs::Positions::after_end))]
fn after_refused(pdu: RefusedPdu) -> Position
    ensures { result ≡ after_end pdu.bit pdu.end }
{
    let end = pdu.end;
    match end {
        Some(bit) => Position::At(bit),
        None => Position::Ended(pdu.bit),
    }
}

#[tactic(auto, unfolding(crate::specs::Positions::after_entry, crate::specs::Positions::NullFits))]
fn after_entry(entry: BlockEntry) -> Position
    requires { NullFits entry }
    ensures { result ≡ after_entry entry }
{
    match entry {
        BlockEntry::Resource(pdu) => Position::At(pdu.end),
        BlockEntry::Null(bit) => Position::Ended(bit + LEAST_BITS),
        BlockEntry::Refused(pdu) => after_refused(pdu),
    }
}

// The step from a bit, and the position after it.
#[tactic(auto, unfolding(crate::specs::Positions::after, crate::specs::Positions::step_from))]
fn step_at(block: &[u8], bits: usize, bit: usize) -> WalkStep
    ensures { result ≡ step_from block.now bits (Position.At bit) }
{
    match reader::step(block, bits, bit) {
        Ok(Some(entry)) => WalkStep {
            position: after_entry(entry),
            answer: Ok(Some(entry)),
        },
        Ok(None) => WalkStep {
            position: Position::Ended(bit),
            answer: Ok(None),
        },
        Err(refusal) => WalkStep {
            position: Position::Ended(bit),
            answer: Err(refusal),
        },
    }
}

// The step from a position, and the position after it.
#[tactic(auto, unfolding(crate::specs::Positions::step_from))]
fn step_from(block: &[u8], bits: usize, position: Position) -> WalkStep
    ensures { result ≡ step_from block.now bits position }
{
    match position {
        Position::At(bit) => step_at(block, bits, bit),
        Position::Ended(rest_at) => WalkStep {
            position: Position::Ended(rest_at),
            answer: Ok(None),
        },
    }
}

// How many bits there are from one bit to another: none where that does not lie behind it.
pub fn bits_between(start: usize, end: usize) -> usize
    ensures { result ≡ end - start }
{
    end.saturating_sub(start)
}

// How many bits the rest has: those behind the walk that goes on from a position to its end.
pub fn rest_from(block: &[u8], bits: usize, position: Position) -> usize
    ensures { result ≡ rest_from block.now bits position }
{
    match position {
        Position::At(bit) => rest_from(block, bits, step_at(block, bits, bit).position),
        Position::Ended(rest_at) => bits_between(rest_at, bits),
    }
}

// A walk keeps the lent block, its bit count, and where it is.
#[derive(Clone, Copy)]
pub struct Walk<'a> {
    block: &'a [u8],
    bits: usize,
    position: Position,
}

impl<'a> Walk<'a> {
    // The walk over a block of so many bits, at bit 0.
    pub fn new(block: &'a [u8], bits: usize) -> Walk<'a>
        ensures { result ≡ begun block.entry bits }
    {
        Walk {
            block,
            bits,
            position: Position::At(0),
        }
    }

    // What the step from here answers; the walk moves on behind it.
    pub fn next(&mut self) -> Result<Option<BlockEntry>, Refusal>
        ensures { (result ≡ (step_from self.old.block.now self.old.bits self.old.position).answer)
            × (self.new ≡ moved self.old) }
    {
        let done = step_from(self.block, self.bits, self.position);
        self.position = done.position;
        done.answer
    }

    // How many bits the rest has.
    pub fn rest(self) -> usize
        ensures { result ≡ rest_from self.entry.block.now self.entry.bits self.entry.position }
    {
        rest_from(self.block, self.bits, self.position)
    }
}

// A step from any position, made by the walk: what a caller with no walk of its own calls.
pub fn walk_step(block: &[u8], bits: usize, position: Position) -> WalkStep
    ensures { result ≡ step_from block.now bits position }
{
    let mut walk = Walk {
        block,
        bits,
        position,
    };
    let answer = walk.next();
    WalkStep {
        position: walk.position,
        answer,
    }
}
