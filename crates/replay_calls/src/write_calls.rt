// The bit buffer's calls that write one slice: 68 to 70.
use crate::answers::{Stop, Tell, Words};
use crate::calls::UnknownCall;
use crate::given::Given;
use tetra_core::bitbuffer;

#[derive(Clone, Copy)]
pub enum WriteCall {
    WriteBit = 68,
    WriteZeroes,
    WriteOnes,
}

impl TryFrom<u64> for WriteCall {
    ghost use Rattle.replay_calls.specs.Calls.{Decodes, write_number};

    type Error = UnknownCall;

    ghost try_from_gives = { Decodes write_number };

    fn try_from(n: u64) -> Result<WriteCall, UnknownCall> {
        match n {
            68 => Ok(WriteCall::WriteBit),
            69 => Ok(WriteCall::WriteZeroes),
            70 => Ok(WriteCall::WriteOnes),
            _ => Err(UnknownCall),
        }
    }
}

impl WriteCall {
    pub(crate) fn name(self) -> &'static str {
        match self {
            WriteCall::WriteBit => "write_bit",
            WriteCall::WriteZeroes => "write_zeroes",
            WriteCall::WriteOnes => "write_ones",
        }
    }

    pub(crate) fn run(self, s: &mut [u8], given: Given<'_>, out: &mut Words) -> Result<(), Stop> {
        let c = given.window;
        let bit = given.octet(0);
        let n = given.count(0);
        match self {
            WriteCall::WriteBit => bitbuffer::write_bit(s, c, bit).tell(out),
            WriteCall::WriteZeroes => bitbuffer::write_zeroes(s, c, n).tell(out),
            WriteCall::WriteOnes => bitbuffer::write_ones(s, c, n).tell(out),
        }
    }
}
