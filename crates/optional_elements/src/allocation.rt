// Clause 21.4.3.1, channel allocation: a flag and, where it is set, the element of clause 21.5.2.
ghost use Rattle.std.specs.Prelude.{◌≡◌, ◌++◌, ◌≤◌};
ghost use Rattle.tetra_core.specs.Refusal.{refused_by};
ghost use Rattle.codec.specs.Ahead.{Ready, ReadsNext};
ghost use Rattle.codec.specs.Row.{row_bits};
ghost use Rattle.codec.specs.Piece.{Holds};
ghost use Rattle.optional_elements.specs.Allocation.{allocation_most, read_allocation, allocation_refusal, allocation_len, allocation_len_refusal, flag_row, allocation_bits};

use crate::optional;
use channel_allocation::channel_allocation as element;
use channel_allocation::channel_allocation::ChanAllocElement;
use codec::Ahead;
use codec::piece::Piece;
use tetra_core::refusal::{Reason, Refusal};

// The channel allocation flag that is ahead, and the element where it is set; and what is ahead after them.
pub fn read_allocation(a: Ahead) -> Result<(Ahead, Option<ChanAllocElement>), Refusal>
    requires { Ready a allocation_most }
    ensures { ReadsNext read_allocation a allocation_most result }
{
    optional::read_optional(a, element::read_channel_allocation)
}

// Why it is not written, if so.
pub fn allocation_refusal(a: Option<ChanAllocElement>) -> Result<(), Reason>
    ensures { refused_by result ≡ allocation_refusal a }
{
    optional::refusal(a)
}

// The bits of the flag with its element.
pub fn allocation_len(a: Option<ChanAllocElement>) -> usize
    ensures { (result ≡ allocation_len a) × (result ≤ allocation_most) }
{
    optional::len(a)
}

// Why they are not counted, if so.
pub fn allocation_len_refusal(a: Option<ChanAllocElement>) -> Result<(), Reason>
    ensures { refused_by result ≡ allocation_len_refusal a }
{
    match a {
        None => Ok(()),
        Some(e) => element::len_refusal(e),
    }
}

pub fn allocation_piece(a: Option<ChanAllocElement>) -> Piece
    requires { allocation_refusal a ≡ 0 }
    ensures { Holds (row_bits (flag_row a) ++ allocation_bits a) (allocation_len a) result }
{
    optional::flagged(a)
}
