// Two fields read on one cursor, which is lent to each call.
ghost use Rattle.std.specs.Prelude.{◌≡◌};
ghost use Rattle.lent_cursor.specs.Two.{two_of};

use tetra_core::bitbuffer::Cursor;
use tetra_core::refusal::Refusal;

// Two fields in a row, and the cursor after them.
#[derive(Clone, Copy)]
pub(crate) struct Two {
    pub(crate) first: Result<u64, Refusal>,
    pub(crate) second: Result<u64, Refusal>,
    pub(crate) cursor: Cursor,
}

// Reads two fields on one cursor, which is lent twice and moves on by the bits of each.
pub(crate) fn read_two(s: &[u8], c: Cursor, n: usize, m: usize) -> Two
    ensures { result ≡ two_of s.now c n m }
{
    let mut d = c;
    let first = field_calls::read_field(s, &mut d, n);
    let second = field_calls::read_field(s, &mut d, m);
    Two {
        first,
        second,
        cursor: d,
    }
}
