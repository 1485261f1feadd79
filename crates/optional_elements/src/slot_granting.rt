// Clause 21.4.3.1, slot granting: a flag and, where it is set, a basic slot grant of 8 bits.
ghost use Rattle.std.specs.Prelude.{◌≡◌, ◌≤◌};
ghost use Rattle.tetra_core.specs.Refusal.{refused_by};
ghost use Rattle.codec.specs.Ahead.{Ready, ReadsNext};
ghost use Rattle.codec.specs.Row.{row_bits};
ghost use Rattle.codec.specs.Piece.{Holds};
ghost use Rattle.optional_elements.specs.SlotGranting.{granting_most, read_granting, granting_refusal, granting_len, granting_row};

use crate::optional;
use codec::Ahead;
use codec::piece::Piece;
use tetra_core::refusal::{Reason, Refusal};
use tetra_fields::fields::basic_slotgrant;
use tetra_fields::fields::basic_slotgrant::BasicSlotgrant;

// The slot granting flag that is ahead, and the element where it is set; and what is ahead after them.
pub fn read_granting(a: Ahead) -> Result<(Ahead, Option<BasicSlotgrant>), Refusal>
    requires { Ready a granting_most }
    ensures { ReadsNext read_granting a granting_most result }
{
    optional::read_optional(a, basic_slotgrant::read_slotgrant)
}

// Why it is not written, if so.
pub fn granting_refusal(g: Option<BasicSlotgrant>) -> Result<(), Reason>
    ensures { refused_by result ≡ granting_refusal g }
{
    optional::refusal(g)
}

// The bits of the flag with its element.
pub fn granting_len(g: Option<BasicSlotgrant>) -> usize
    ensures { (result ≡ granting_len g) × (result ≤ granting_most) }
{
    optional::len(g)
}

pub fn granting_piece(g: Option<BasicSlotgrant>) -> Piece
    requires { granting_refusal g ≡ 0 }
    ensures { Holds (row_bits (granting_row g)) (granting_len g) result }
{
    optional::flagged(g)
}
