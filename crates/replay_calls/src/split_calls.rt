// The bit buffer's calls that take from one slice and write another: 72 to 76. The bytes are both, one behind the other; the call's first number
// says how many are the first's.
use crate::answers::{Stop, Tell, Words};
use crate::calls::UnknownCall;
use crate::given::Given;
use tetra_core::bitbuffer;
use tetra_core::bitbuffer::Cursor;

#[derive(Clone, Copy)]
pub enum SplitCall {
    ReadBitsIntoSlice = 72,
    ToBitarr,
    CopyBits,
    CopyBitsFromBitarr,
    IntoBitvec,
}

impl TryFrom<u64> for SplitCall {
    ghost use Rattle.replay_calls.specs.Calls.{Decodes, split_number};

    type Error = UnknownCall;

    ghost try_from_gives = { Decodes split_number };

    fn try_from(n: u64) -> Result<SplitCall, UnknownCall> {
        match n {
            72 => Ok(SplitCall::ReadBitsIntoSlice),
            73 => Ok(SplitCall::ToBitarr),
            74 => Ok(SplitCall::CopyBits),
            75 => Ok(SplitCall::CopyBitsFromBitarr),
            76 => Ok(SplitCall::IntoBitvec),
            _ => Err(UnknownCall),
        }
    }
}

impl SplitCall {
    pub(crate) fn name(self) -> &'static str {
        match self {
            SplitCall::ReadBitsIntoSlice => "read_bits_into_slice",
            SplitCall::ToBitarr => "to_bitarr",
            SplitCall::CopyBits => "copy_bits",
            SplitCall::CopyBitsFromBitarr => "copy_bits_from_bitarr",
            SplitCall::IntoBitvec => "into_bitvec",
        }
    }

    // Of copy_bits the window is the second slice's; that of the first is given as numbers.
    pub(crate) fn run(self, s: &mut [u8], given: Given<'_>, out: &mut Words) -> Result<(), Stop> {
        let c = given.window;
        let n = given.count(1);
        let source = Cursor {
            start: given.count(2),
            pos: given.count(3),
            end: given.count(4),
        };
        let k = given.count(0);
        let Some((from, to)) = s.split_at_mut_checked(k) else {
            return Err(Stop::Malformed);
        };
        match self {
            SplitCall::ReadBitsIntoSlice => {
                bitbuffer::read_bits_into_slice(from, c, n, to).tell(out)
            }
            SplitCall::ToBitarr => bitbuffer::to_bitarr(from, c, to).tell(out),
            SplitCall::CopyBits => bitbuffer::copy_bits(to, c, from, source, n).tell(out),
            SplitCall::CopyBitsFromBitarr => {
                bitbuffer::copy_bits_from_bitarr(to, c, from).tell(out)
            }
            SplitCall::IntoBitvec => bitbuffer::into_bitvec(from, c, to).tell(out),
        }
    }
}
