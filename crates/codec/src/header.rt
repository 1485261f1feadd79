// Headers, and elements that are read by themselves, at a cursor.
ghost use Rattle.std.specs.Prelude.{◌≡◌, length};
ghost use Rattle.tetra_core.specs.Laws.Windows.{Good};
ghost use Rattle.codec.specs.Reader.{Reader};
ghost use Rattle.codec.specs.Header.{within, at_cursor};
ghost use Rattle.codec.specs.Ahead.{Held, Ready, Reads};

use crate::Ahead;
use tetra_core::bitbuffer;
use tetra_core::bitbuffer::{Cursor, Read};
use tetra_core::refusal::{Reason, Refusal};

// What is read at a cursor: by its definition, and by the code that takes it from the bits ahead.
pub trait Header: Sized {
    ghost reader: { Reader Self };

    // The header of a window whose bits are ahead, and what is ahead after it.
    fn read(s: &[u8], c: Cursor, a: Ahead) -> Result<(Ahead, Self), Refusal>
        requires { Good (length s.now) c × Held (within s.now c) a × Ready a 64 }
        ensures { Reads reader (within s.now c) a.at result };
}

// Reads a header at the cursor.
pub fn from_bitbuf<T: Header>(s: &[u8], c: Cursor) -> Read<T>
    ensures { result ≡ at_cursor T.reader s.now c }
{
    if !bitbuffer::good_window(s.len(), c) {
        return Read {
            cursor: c,
            answer: Err(Refusal {
                reason: Reason::BadWindow,
                offset: 0,
            }),
        };
    }
    match T::read(s, c, crate::load(s, c, 0)) {
        Ok((after, header)) => Read {
            cursor: crate::moved_by(c, after.at),
            answer: Ok(header),
        },
        Err(refusal) => Read {
            cursor: c,
            answer: Err(refusal),
        },
    }
}
