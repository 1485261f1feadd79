// Clause 21.4.3.1, power control: a flag and, where it is set, an element of 4 bits.
ghost use Rattle.std.specs.Prelude.{◌≡◌, ◌≤◌};
ghost use Rattle.tetra_core.specs.Refusal.{refused_by};
ghost use Rattle.codec.specs.Ahead.{Ready, ReadsNext};
ghost use Rattle.codec.specs.Row.{row_bits};
ghost use Rattle.codec.specs.Piece.{Holds};
ghost use Rattle.optional_elements.specs.PowerControl.{level_len, power_most, read_level, read_power, power_refusal, power_len, power_row};

use crate::optional;
use codec::Ahead;
use codec::piece::Piece;
use tetra_core::refusal::{Reason, Refusal};

// The bits of the element, and with its flag, which is worth FLAG before it.
const LEVEL_BITS: usize = 4;

const POWER_BITS: usize = 1 + LEVEL_BITS;

const FLAG: u64 = 1 << 4;

// The level that is ahead, and what is ahead after it.
fn read_level(a: Ahead) -> Result<(Ahead, u8), Refusal>
    requires { Ready a level_len }
    ensures { ReadsNext read_level a level_len result }
{
    if a.left < LEVEL_BITS {
        return Err(codec::field_past_end(a.at));
    }
    let level = a.next_bits(LEVEL_BITS);
    Ok((a.advance(LEVEL_BITS), level as u8))
}

// The power control flag that is ahead, and the level where it is set; and what is ahead after them.
pub fn read_power(a: Ahead) -> Result<(Ahead, Option<u8>), Refusal>
    requires { Ready a power_most }
    ensures { ReadsNext read_power a power_most result }
{
    optional::read_optional(a, read_level)
}

// Why it is not written, if so. A level is a number and no type of its own that is encoded by itself: so refusal, length and piece are
// written here, and not by those of `optional`.
pub fn power_refusal(p: Option<u8>) -> Result<(), Reason>
    ensures { refused_by result ≡ power_refusal p }
{
    match p {
        None => Ok(()),
        Some(v) => {
            if v < 16 {
                return Ok(());
            }
            Err(Reason::ValueTooWide)
        }
    }
}

// The bits of the flag with its element.
pub fn power_len(p: Option<u8>) -> usize
    ensures { (result ≡ power_len p) × (result ≤ power_most) }
{
    match p {
        None => 1,
        Some(_) => POWER_BITS,
    }
}

pub fn power_piece(p: Option<u8>) -> Piece
    requires { power_refusal p ≡ 0 }
    ensures { Holds (row_bits (power_row p)) (power_len p) result }
{
    match p {
        None => Piece { value: 0, bits: 1 },
        Some(v) => Piece {
            value: 1 * FLAG + v as u64,
            bits: POWER_BITS,
        },
    }
}
