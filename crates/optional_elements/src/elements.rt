// Clause 21.4.3.1, the optional elements of MAC-RESOURCE: power control, then slot granting and channel allocation.
ghost use Rattle.std.specs.Prelude.{◌≡◌, ◌≤◌, length};
ghost use Rattle.tetra_core.specs.Refusal.{refused_by};
ghost use Rattle.tetra_core.specs.Laws.Windows.{Good};
ghost use Rattle.codec.specs.Header.{within};
ghost use Rattle.codec.specs.Ahead.{Held, Ready, Reads, ReadsNext};
ghost use Rattle.codec.specs.Piece.{Holds};
ghost use Rattle.codec.specs.Encoded.{EncodesOne};
ghost use Rattle.optional_elements.specs.Elements.{no_elements, flags_len, elements_most, no_element, is_bare, read_elements, elements_refusal, elements_len, elements_bits};

use crate::grant_and_allocation::GrantAndAllocation;
use crate::{grant_and_allocation, power_control};
use codec::encoded::{Encode, Encoded};
use codec::piece::Piece;
use codec::{Ahead, encoded, piece};
use tetra_core::bitbuffer::Cursor;
use tetra_core::refusal::{Reason, Refusal};

// The three flags.
pub const FLAGS: usize = 3;

// Each with the bits of its flag and its own.
#[derive(Clone, Copy)]
pub struct Elements {
    // 1, and 4 if set
    pub power_control_element: Option<u8>,
    pub grant_and_allocation: GrantAndAllocation,
}

fn no_elements() -> Elements
    ensures { result ≡ no_elements }
{
    Elements {
        power_control_element: None,
        grant_and_allocation: GrantAndAllocation {
            slot_granting_element: None,
            chan_alloc_element: None,
        },
    }
}

// The three flags that are ahead, one by one, each with its element; and what is ahead after them.
fn read_each(a: Ahead) -> Result<(Ahead, Elements), Refusal>
    requires { Ready a elements_most }
    ensures { ReadsNext read_elements a elements_most result }
{
    let (behind, power_control_element) = power_control::read_power(a)?;
    let (after, grant_and_allocation) = grant_and_allocation::read_grant_and_allocation(behind)?;
    let elements = Elements {
        power_control_element,
        grant_and_allocation,
    };
    Ok((after, elements))
}

// Whether the three flags that are ahead are there and none of them is set.
fn no_element(a: Ahead) -> bool
    requires { Ready a flags_len }
    ensures { result ≡ no_element a }
{
    if a.left < FLAGS {
        return false;
    }
    a.next_bits(FLAGS) == 0
}

// The elements that are ahead. Most headers have none: then the three flags are one word. The other case is called from here alone, so that
// the compiler puts it here and no element goes through memory.
pub fn read_elements(s: &[u8], c: Cursor, a: Ahead) -> Result<(Ahead, Elements), Refusal>
    requires { Good (length s.now) c × Held (within s.now c) a × Ready a flags_len }
    ensures { Reads read_elements (within s.now c) a.at result }
{
    if no_element(a) {
        return Ok((a.advance(FLAGS), no_elements()));
    }
    read_each(codec::load(s, c, a.at))
}

// Whether there is no element. Most headers have none: asked first, it saves them what the elements take.
fn is_bare(e: Elements) -> bool
    ensures { result ≡ is_bare e }
{
    let power = e.power_control_element;
    let behind = e.grant_and_allocation;
    let granting = behind.slot_granting_element;
    let allocation = behind.chan_alloc_element;
    power.is_none() && granting.is_none() && allocation.is_none()
}

// Why an element is not written, if so.
fn elements_refusal(e: Elements) -> Result<(), Reason>
    ensures { refused_by result ≡ elements_refusal e }
{
    let power = e.power_control_element;
    let behind = e.grant_and_allocation;
    power_control::power_refusal(power)?;
    grant_and_allocation::grant_and_allocation_refusal(behind)
}

pub fn elements_len(e: Elements) -> usize
    ensures { (result ≡ elements_len e) × (result ≤ elements_most) }
{
    let power = e.power_control_element;
    let behind = e.grant_and_allocation;
    power_control::power_len(power) + grant_and_allocation::grant_and_allocation_len(behind)
}

// The three flags with their elements as one number.
fn elements_piece(e: Elements) -> Piece
    requires { elements_refusal e ≡ 0 }
    ensures { Holds (elements_bits e) (elements_len e) result }
{
    let power = e.power_control_element;
    let pair = e.grant_and_allocation;
    let behind = grant_and_allocation::grant_and_allocation_piece(pair);
    piece::joined(power_control::power_piece(power), behind)
}

impl Encode for Elements {
    ghost refused = { elements_refusal };

    ghost size = { elements_len };

    ghost bits = { elements_bits };

    fn refusal(self) -> Result<(), Reason> {
        elements_refusal(self)
    }

    fn len(self) -> usize {
        elements_len(self)
    }

    fn word(self) -> u64 {
        elements_piece(self).value
    }
}

// The elements on their way out.
pub fn elements_encoded(e: Elements) -> Encoded
    ensures { EncodesOne (elements_refusal e) (elements_len e) (elements_bits e) result }
{
    if is_bare(e) {
        return Encoded {
            judged: Ok(()),
            piece: Piece {
                value: 0,
                bits: FLAGS,
            },
        };
    }
    encoded::of(e)
}
