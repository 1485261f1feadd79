// Slot granting and channel allocation, one behind the other: what MAC-RESOURCE (clause 21.4.3.1) and MAC-END (21.4.3.3) end with.
ghost use Rattle.std.specs.Prelude.{◌≡◌, ◌≤◌};
ghost use Rattle.tetra_core.specs.Refusal.{refused_by};
ghost use Rattle.codec.specs.Ahead.{Ready, ReadsNext};
ghost use Rattle.codec.specs.Piece.{Holds};
ghost use Rattle.optional_elements.specs.GrantAndAllocation.{grant_and_allocation_most, read_grant_and_allocation, grant_and_allocation_refusal, grant_and_allocation_len, grant_and_allocation_bits};

use crate::{allocation, slot_granting};
use channel_allocation::channel_allocation::ChanAllocElement;
use codec::piece::Piece;
use codec::{Ahead, piece};
use tetra_core::refusal::{Reason, Refusal};
use tetra_fields::fields::basic_slotgrant::BasicSlotgrant;

// Each with the bits of its flag and its own.
#[derive(Clone, Copy)]
pub struct GrantAndAllocation {
    // 1, and 8 if set
    pub slot_granting_element: Option<BasicSlotgrant>,
    // 1, and 25 or 27 if set
    pub chan_alloc_element: Option<ChanAllocElement>,
}

// The two flags that are ahead, each with its element; and what is ahead after them.
pub fn read_grant_and_allocation(a: Ahead) -> Result<(Ahead, GrantAndAllocation), Refusal>
    requires { Ready a grant_and_allocation_most }
    ensures { ReadsNext read_grant_and_allocation a grant_and_allocation_most result }
{
    let (behind, slot_granting_element) = slot_granting::read_granting(a)?;
    let (after, chan_alloc_element) = allocation::read_allocation(behind)?;
    let elements = GrantAndAllocation {
        slot_granting_element,
        chan_alloc_element,
    };
    Ok((after, elements))
}

// Why they are not written, if so.
pub fn grant_and_allocation_refusal(e: GrantAndAllocation) -> Result<(), Reason>
    ensures { refused_by result ≡ grant_and_allocation_refusal e }
{
    let granting = e.slot_granting_element;
    let allocation = e.chan_alloc_element;
    slot_granting::granting_refusal(granting)?;
    allocation::allocation_refusal(allocation)
}

pub fn grant_and_allocation_len(e: GrantAndAllocation) -> usize
    ensures { (result ≡ grant_and_allocation_len e) × (result ≤ grant_and_allocation_most) }
{
    let granting = e.slot_granting_element;
    let allocation = e.chan_alloc_element;
    slot_granting::granting_len(granting) + allocation::allocation_len(allocation)
}

// The two flags with their elements as one number.
pub fn grant_and_allocation_piece(e: GrantAndAllocation) -> Piece
    requires { grant_and_allocation_refusal e ≡ 0 }
    ensures { Holds (grant_and_allocation_bits e) (grant_and_allocation_len e) result }
{
    let granting = e.slot_granting_element;
    let allocation = e.chan_alloc_element;
    piece::joined(
        slot_granting::granting_piece(granting),
        allocation::allocation_piece(allocation),
    )
}
