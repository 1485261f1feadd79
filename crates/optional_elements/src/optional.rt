// A flag and, where it is set, an element: so each optional element is read, and those that are encoded by themselves are written.
ghost use Rattle.std.specs.Prelude.{ℕ, ◌≡◌, ◌+◌, ◌≤◌};
ghost use Rattle.tetra_core.specs.Refusal.{refused_by};
ghost use Rattle.codec.specs.Reader.{Reader};
ghost use Rattle.codec.specs.Ahead.{Ready, ReadsNext, advanced};
ghost use Rattle.codec.specs.Piece.{Holds};
ghost use Rattle.optional_elements.specs.Optional.{optional, optional_refusal, optional_len, optional_bits};

use codec::encoded::Encode;
use codec::piece::Piece;
use codec::{Ahead, piece};
use tetra_core::refusal::{Reason, Refusal};

// The flag that is ahead, and where it is set the element behind it, as read takes it; and what is ahead after them.
pub fn read_optional<T, F: FnOnce(Ahead) -> Result<(Ahead, T), Refusal>>(
    a: Ahead,
    read: F,
) -> Result<(Ahead, Option<T>), Refusal>
    requires { Ready a 1 × (1 ≤ a.left → F.pre read (advanced a 1)) }
    ensures { (p : Reader T) (n : ℕ) → ((r : _) → F.post read (advanced a 1) r → ReadsNext p (advanced a 1) n r) → ReadsNext (optional p) a (1 + n) result }
{
    if a.left < 1 {
        return Err(codec::field_past_end(a.at));
    }
    let b = a.advance(1);
    if a.next_bits(1) == 0 {
        return Ok((b, None));
    }
    let (after, element) = read(b)?;
    Ok((after, Some(element)))
}

// Why an element is not written, if so.
pub fn refusal<T: Encode>(v: Option<T>) -> Result<(), Reason>
    ensures { refused_by result ≡ optional_refusal T.refused v }
{
    match v {
        None => Ok(()),
        Some(e) => e.refusal(),
    }
}

// The bits of the flag with its element.
pub fn len<T: Encode>(v: Option<T>) -> usize
    ensures { result ≡ optional_len T.size v }
{
    match v {
        None => 1,
        Some(e) => 1 + e.len(),
    }
}

// The flag with its element as one number, where both take up no more bits than a piece has.
pub fn flagged<T: Encode>(v: Option<T>) -> Piece
    requires { (optional_refusal T.refused v ≡ 0) × (optional_len T.size v ≤ 63) }
    ensures { Holds (optional_bits T.bits v) (optional_len T.size v) result }
{
    match v {
        None => Piece { value: 0, bits: 1 },
        Some(e) => {
            let element = Piece {
                value: e.word(),
                bits: e.len(),
            };
            piece::joined(Piece { value: 1, bits: 1 }, element)
        }
    }
}
