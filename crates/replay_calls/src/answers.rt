// What a call answers: words, of which a call puts some and leaves the others as they are, or why it stops.
ghost use Rattle.std.specs.Prelude.{◌≡◌, ◌≢◌, replicate, MatchOption};
ghost use Rattle.tetra_core.specs.Refusal.{number};
ghost use Rattle.replay_calls.specs.Words.{put};

use tetra_core::bitbuffer::{Copied, Cursor, Moved, Read};
use tetra_core::refusal::{Reason, Refusal};

// Why a call answers nothing.
#[derive(Clone, Copy)]
pub enum Stop {
    // Refused; of a call that is no read of the C interface the offset is 0.
    Refused(Refusal),
    // What the call is given is no record of it.
    Malformed,
}

// The words that the longest answer has room in, some of which no call puts.
pub const MOST_WORDS: usize = 40;

// A word that no call has put.
pub const UNTOUCHED: u64 = 0x5555_5555_5555_5555;

// The words of an answer, the first of which a call puts.
#[derive(Clone, Copy)]
pub struct Words {
    pub words: [u64; MOST_WORDS],
}

impl Words {
    // Words that no call has put.
    pub fn untouched() -> Words
        ensures { result.words ≡ replicate MOST_WORDS 6148914691236517205 }
    {
        Words {
            words: [UNTOUCHED; MOST_WORDS],
        }
    }

    // Puts words at the start, as many as there is room for.
    pub fn put(&mut self, words: &[u64])
        ensures { self.new.words ≡ put self.old.words words.now }
    {
        let n = words.len().min(MOST_WORDS);
        self.words[..n].copy_from_slice(&words[..n]);
    }

    fn put_window(&mut self, c: Cursor) {
        self.put(&[c.start as u64, c.pos as u64, c.end as u64]);
    }

    // The value of a call on a window, behind the window.
    fn put_value(&mut self, v: u64) {
        self.words[3] = v;
    }
}

// The reason of a number, 1 to 14, of the C interface or of the list.
pub fn reason_of(n: u64) -> Option<Reason>
    ensures { MatchOption result ((r : _) → number r ≢ n) (λ r. number r ≡ n) }
{
    match n {
        1 => Some(Reason::ReadPastEnd),
        2 => Some(Reason::WritePastEnd),
        3 => Some(Reason::ValueTooWide),
        4 => Some(Reason::WrongPduType),
        5 => Some(Reason::ExtendedCarrier),
        6 => Some(Reason::Augmented),
        7 => Some(Reason::UsageMarker),
        8 => Some(Reason::Length),
        9 => Some(Reason::NullPdu),
        10 => Some(Reason::EncryptedAddress),
        11 => Some(Reason::NoFrame18Pattern),
        12 => Some(Reason::NoFillBit),
        13 => Some(Reason::BadWindow),
        14 => Some(Reason::DelayCount),
        _ => None,
    }
}

// The status of a read of the C interface: 0, 255, or the number of its refusal with 256 times the refused field's bit.
pub(crate) fn read_status(status: u64) -> Result<(), Stop> {
    let offset = (status / 256) as usize;
    match reason_of(status % 256) {
        Some(reason) => Err(Stop::Refused(Refusal { offset, reason })),
        None if status == 0 => Ok(()),
        None => Err(Stop::Malformed),
    }
}

// The status of any other call of it: 0, 255, or the number of its refusal.
pub(crate) fn status(status: u64) -> Result<(), Stop> {
    match reason_of(status) {
        Some(reason) => Err(Stop::from(reason)),
        None if status == 0 => Ok(()),
        None => Err(Stop::Malformed),
    }
}

// A write or a move has only a reason.
impl From<Reason> for Stop {
    fn from(reason: Reason) -> Stop {
        Stop::Refused(Refusal { offset: 0, reason })
    }
}

// A bit buffer's call is refused at the bit where it begins.
impl From<Refusal> for Stop {
    fn from(r: Refusal) -> Stop {
        match r.offset {
            0 => Stop::Refused(r),
            _ => Stop::Malformed,
        }
    }
}

// What is told as an answer's words.
pub(crate) trait Tell {
    fn tell(self, out: &mut Words) -> Result<(), Stop>;
}

impl<const N: usize> Tell for [u64; N] {
    fn tell(self, out: &mut Words) -> Result<(), Stop> {
        out.put(&self);
        Ok(())
    }
}

// What there is not has no word.
impl<T: Tell> Tell for Option<T> {
    fn tell(self, out: &mut Words) -> Result<(), Stop> {
        match self {
            Some(told) => told.tell(out),
            None => Ok(()),
        }
    }
}

impl Tell for Result<(), Reason> {
    fn tell(self, _out: &mut Words) -> Result<(), Stop> {
        Ok(self?)
    }
}

impl Tell for Read<u64> {
    fn tell(self, out: &mut Words) -> Result<(), Stop> {
        let answer = self.answer;
        out.put_window(self.cursor);
        match answer {
            Ok(v) => out.put_value(v),
            Err(r) => return Err(Stop::from(r)),
        }
        Ok(())
    }
}

impl Tell for Moved {
    fn tell(self, out: &mut Words) -> Result<(), Stop> {
        let answer = self.answer;
        out.put_window(self.cursor);
        answer.tell(out)
    }
}

// Behind the window that was written, the place in the other.
impl Tell for Copied {
    fn tell(self, out: &mut Words) -> Result<(), Stop> {
        let answer = self.answer;
        out.put_window(self.cursor);
        out.put_value(self.source.pos as u64);
        answer.tell(out)
    }
}

impl Tell for Result<Cursor, Refusal> {
    fn tell(self, out: &mut Words) -> Result<(), Stop> {
        match self {
            Ok(c) => out.put_window(c),
            Err(r) => return Err(Stop::from(r)),
        }
        Ok(())
    }
}
