// The bit buffer's calls on one slice that only read it: 48 to 64.
use crate::answers::{Stop, Tell, Words};
use crate::calls::UnknownCall;
use crate::given::Given;
use tetra_core::bitbuffer;
use tetra_core::bitbuffer::{Cursor, Read};
use tetra_core::refusal::Refusal;

#[derive(Clone, Copy)]
pub enum WindowCall {
    ReadBit = 48,
    PeekBits,
    PeekBitsStartoffset,
    GetLen,
    GetLenRemaining,
    GetLenWritten,
    GetPos,
    GetRawStart,
    GetRawEnd,
    GetRawPos,
    New,
    FromBytes,
    Seek,
    SeekRel,
    SetRawStart,
    SetRawEnd,
    SetRawPos,
}

impl TryFrom<u64> for WindowCall {
    ghost use Rattle.replay_calls.specs.Calls.{Decodes, window_number};

    type Error = UnknownCall;

    ghost try_from_gives = { Decodes window_number };

    fn try_from(n: u64) -> Result<WindowCall, UnknownCall> {
        match n {
            48 => Ok(WindowCall::ReadBit),
            49 => Ok(WindowCall::PeekBits),
            50 => Ok(WindowCall::PeekBitsStartoffset),
            51 => Ok(WindowCall::GetLen),
            52 => Ok(WindowCall::GetLenRemaining),
            53 => Ok(WindowCall::GetLenWritten),
            54 => Ok(WindowCall::GetPos),
            55 => Ok(WindowCall::GetRawStart),
            56 => Ok(WindowCall::GetRawEnd),
            57 => Ok(WindowCall::GetRawPos),
            58 => Ok(WindowCall::New),
            59 => Ok(WindowCall::FromBytes),
            60 => Ok(WindowCall::Seek),
            61 => Ok(WindowCall::SeekRel),
            62 => Ok(WindowCall::SetRawStart),
            63 => Ok(WindowCall::SetRawEnd),
            64 => Ok(WindowCall::SetRawPos),
            _ => Err(UnknownCall),
        }
    }
}

// A number that is asked of a window leaves it.
fn asked(c: Cursor, answer: Result<u64, Refusal>) -> Read<u64> {
    Read { cursor: c, answer }
}

impl WindowCall {
    pub(crate) fn name(self) -> &'static str {
        match self {
            WindowCall::ReadBit => "read_bit",
            WindowCall::PeekBits => "peek_bits",
            WindowCall::PeekBitsStartoffset => "peek_bits_startoffset",
            WindowCall::GetLen => "get_len",
            WindowCall::GetLenRemaining => "get_len_remaining",
            WindowCall::GetLenWritten => "get_len_written",
            WindowCall::GetPos => "get_pos",
            WindowCall::GetRawStart => "get_raw_start",
            WindowCall::GetRawEnd => "get_raw_end",
            WindowCall::GetRawPos => "get_raw_pos",
            WindowCall::New => "new",
            WindowCall::FromBytes => "from_bytes",
            WindowCall::Seek => "seek",
            WindowCall::SeekRel => "seek_rel",
            WindowCall::SetRawStart => "set_raw_start",
            WindowCall::SetRawEnd => "set_raw_end",
            WindowCall::SetRawPos => "set_raw_pos",
        }
    }

    pub(crate) fn run(self, s: &[u8], given: Given<'_>, out: &mut Words) -> Result<(), Stop> {
        let c = given.window;
        let (n, m) = (given.count(0), given.count(1));
        let offset = given.offset(0);
        match self {
            WindowCall::ReadBit => bitbuffer::read_bit(s, c).tell(out),
            WindowCall::PeekBits => bitbuffer::peek_bits(s, c, n).tell(out),
            WindowCall::PeekBitsStartoffset => {
                bitbuffer::peek_bits_startoffset(s, c, n, m).tell(out)
            }
            WindowCall::GetLen => asked(c, bitbuffer::get_len(s, c)).tell(out),
            WindowCall::GetLenRemaining => asked(c, bitbuffer::get_len_remaining(s, c)).tell(out),
            WindowCall::GetLenWritten => asked(c, bitbuffer::get_len_written(s, c)).tell(out),
            WindowCall::GetPos => asked(c, bitbuffer::get_pos(s, c)).tell(out),
            WindowCall::GetRawStart => [bitbuffer::get_raw_start(c) as u64].tell(out),
            WindowCall::GetRawEnd => [bitbuffer::get_raw_end(c) as u64].tell(out),
            WindowCall::GetRawPos => [bitbuffer::get_raw_pos(c) as u64].tell(out),
            WindowCall::New => bitbuffer::new(s, n).tell(out),
            WindowCall::FromBytes => bitbuffer::from_bytes(s).tell(out),
            WindowCall::Seek => bitbuffer::seek(s, c, n).tell(out),
            WindowCall::SeekRel => bitbuffer::seek_rel(s, c, offset).tell(out),
            WindowCall::SetRawStart => bitbuffer::set_raw_start(s, c, n).tell(out),
            WindowCall::SetRawEnd => bitbuffer::set_raw_end(s, c, n).tell(out),
            WindowCall::SetRawPos => bitbuffer::set_raw_pos(s, c, n).tell(out),
        }
    }
}
