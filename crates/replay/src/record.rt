// A record of the list: a call, the windows that it is made on, and what the original did.
ghost use Rattle.std.specs.Prelude.{◌≤◌, length};
ghost use Rattle.replay.specs.declared.record.TheConstants.{MOST_BYTES};

use crate::difference::{Difference, first_unequal};
use crate::list::{Malformed, Reader};
use arrayvec::ArrayVec;
use replay_calls::answers::{MOST_WORDS, Stop, UNTOUCHED, Words, reason_of};
use replay_calls::block_calls::BlockCall;
use replay_calls::calls::Call;
use replay_calls::given::Given;
use replay_calls::header_calls::BitsCall;
use std::fmt;
use tetra_core::bitbuffer::Cursor;
use tetra_core::refusal::Reason;

const MOST_BYTES: usize = 128;

const MOST_WINDOWS: u64 = 65536;

// Beyond this bit windows behind the first end no further: they are none.
const FAR: usize = 1 << 40;

// What the original did, and so what this port has to do. The list has this port's refusals by their numbers.
#[derive(Clone, Copy)]
pub(crate) enum Class {
    Completed,
    Refused,
    // Refused since the bits are at their end.
    CutOff,
    // Stopped, where a listed difference has this port complete.
    ListedCompleted,
    // Completed, where a listed difference has this port refuse for the reason.
    ListedRefused(Reason),
    // Refused, and this port for the reason.
    RefusedBy(Reason),
}

impl TryFrom<u64> for Class {
    type Error = Malformed;

    fn try_from(class: u64) -> Result<Class, Malformed> {
        match class {
            0 => Ok(Class::Completed),
            1 => Ok(Class::Refused),
            2 => Ok(Class::CutOff),
            3 => Ok(Class::ListedCompleted),
            16..=31 => Ok(Class::ListedRefused(reason_of(class - 16).ok_or(Malformed)?)),
            32..=47 => Ok(Class::RefusedBy(reason_of(class - 32).ok_or(Malformed)?)),
            _ => Err(Malformed),
        }
    }
}

impl fmt::Display for Class {
    fn fmt<W: fmt::Write>(&self, f: &mut fmt::Formatter<W>) -> fmt::Result {
        match self {
            Class::Completed => write!(f, "completed"),
            Class::Refused => write!(f, "refused"),
            Class::CutOff => write!(f, "{}", Reason::ReadPastEnd.number()),
            Class::ListedCompleted | Class::ListedRefused(_) => write!(f, "a listed difference"),
            Class::RefusedBy(reason) => write!(f, "{}", reason.number()),
        }
    }
}

impl Class {
    // Whether this port has to answer so; stop is the bit at which the original was cut off.
    fn allows(self, stop: Option<u64>, answer: Result<(), Stop>) -> bool {
        match (self, answer) {
            (Class::Completed | Class::ListedCompleted, Ok(())) => true,
            (Class::Refused, Err(Stop::Refused(_))) => true,
            (Class::CutOff, Err(Stop::Refused(r))) => {
                r.reason == Reason::ReadPastEnd && stop == Some(r.offset as u64)
            }
            (Class::ListedRefused(reason) | Class::RefusedBy(reason), Err(Stop::Refused(r))) => {
                r.reason == reason
            }
            _ => false,
        }
    }
}

// Room for a record's lists, which a page lends to one record after the other: most stand for one window, and a record that held its lists would
// be filled and moved for longer than it is checked.
#[derive(Drop)]
pub(crate) struct Room {
    numbers: ArrayVec<u64, MOST_WORDS>,
    // The list behind the numbers, and the words that it stands for.
    answer: ArrayVec<u64, MOST_WORDS>,
    recorded: Words,
    // The words of a call that is refused, where none are recorded.
    unmoved: Words,
}

impl Room {
    pub(crate) fn new() -> Room {
        Room {
            numbers: ArrayVec::new(),
            answer: ArrayVec::new(),
            recorded: Words::untouched(),
            unmoved: Words::untouched(),
        }
    }
}

#[derive(Drop)]
pub(crate) struct Record<'a, 'r> {
    pub(crate) call: Call,
    pub(crate) class: Class,
    bytes: &'a [u8],
    // The first window; the others end one bit later each.
    first: Cursor,
    pub(crate) windows: u64,
    numbers: &'r [u64],
    // The words and the bytes that the call has to leave.
    words: &'r Words,
    left: &'a [u8],
    // Where the original was cut off, the bits from pos at which it was, in pairs: for how many windows, and the bit.
    stops: Option<&'r Words>,
    ghost short: { length bytes.now ≤ MOST_BYTES },
}

fn writes(call: Call) -> bool {
    matches!(
        call,
        Call::Write(_)
            | Call::Bits(BitsCall::WriteBits)
            | Call::WriteSlice(_)
            | Call::Split(_)
            | Call::Block(BlockCall::Add | BlockCall::Finish)
    )
}

// Whether the words of an answer are recorded where the original did not complete, too.
fn always_answers(call: Call) -> bool {
    !matches!(
        call,
        Call::Read(_) | Call::Write(_) | Call::Bits(_) | Call::Length(_)
    )
}

// The words of a call that is refused: the cursor's bit as it was, where the call has one.
fn unmoved_words(call: Call, c: Cursor, words: &mut Words) -> &Words {
    *words = Words::untouched();
    if matches!(call, Call::Read(_) | Call::Write(_) | Call::Bits(_)) {
        words.put(&[c.pos as u64]);
    }
    words
}

impl<'a, 'r> Record<'a, 'r> {
    pub(crate) fn read(record: &'a [u8], room: &'r mut Room) -> Result<Record<'a, 'r>, Malformed> {
        let Room {
            numbers,
            answer,
            recorded,
            unmoved,
        } = room;
        let mut list = Reader::new(record);
        let call = Call::try_from(list.number()?)?;
        let class = Class::try_from(list.number()?)?;
        let bytes = list.counted_bytes()?;
        let first = Cursor {
            start: list.place()?,
            pos: list.place()?,
            end: list.place()?,
        };
        let windows = list.number()?;
        if MOST_BYTES < bytes.len() || windows == 0 || MOST_WINDOWS < windows {
            return Err(Malformed);
        }
        list.numbers(numbers)?;
        let mut record = Record {
            call,
            class,
            bytes,
            first,
            windows,
            numbers,
            words: unmoved_words(call, first, unmoved),
            left: bytes,
            stops: None,
        };
        record.read_answer(&mut list, answer, recorded)?;
        if list.is_empty() {
            Ok(record)
        } else {
            Err(Malformed)
        }
    }

    // What the call has to leave; a call that is refused leaves the bytes as they were. The record has one list: of the answer's words, of the
    // stops, or of both, where a call that was cut off always answers.
    fn read_answer(
        &mut self,
        list: &mut Reader<'a>,
        answer: &mut ArrayVec<u64, MOST_WORDS>,
        recorded: &'r mut Words,
    ) -> Result<(), Malformed> {
        let answered = matches!(self.class, Class::Completed) || always_answers(self.call);
        let cut_off = matches!(self.class, Class::CutOff);
        *recorded = Words::untouched();
        if answered || cut_off {
            list.numbers(answer)?;
            recorded.put(answer);
        }
        let recorded = &*recorded;
        if answered {
            self.words = recorded;
        }
        if cut_off {
            self.stops = Some(recorded);
            // They are given for no more windows than there are.
            let windows = self.windows;
            if self.stop(windows) != Some(UNTOUCHED) {
                return Err(Malformed);
            }
        }
        if answered
            && matches!(self.class, Class::Completed | Class::ListedCompleted)
            && writes(self.call)
        {
            self.left = list.bytes(self.bytes.len() as u64)?;
        }
        Ok(())
    }

    // Window i. The first stands as it is recorded, however far it ends.
    fn window(&self, i: u64) -> Cursor {
        let end = match i {
            0 => self.first.end,
            _ if FAR < self.first.end => FAR,
            _ => self.first.end.saturating_add(i as usize),
        };
        Cursor { end, ..self.first }
    }

    // The bit at which the original was cut off in window i, where it was. Behind the pairs that are recorded it is a word that is not put, and 0
    // behind all that there is room for.
    fn stop(&self, i: u64) -> Option<u64> {
        let stops = self.stops?;
        let mut before = i;
        let (pairs, _) = stops.words.as_chunks::<2>();
        for [windows, bit] in pairs {
            if before < *windows {
                return Some(*bit);
            }
            before -= *windows;
        }
        Some(0)
    }

    // The call on window i.
    pub(crate) fn check(&self, i: u64) -> Result<(), Difference> {
        let mut room = [0u8; MOST_BYTES];
        let bytes = &mut room[..self.bytes.len()];
        bytes.copy_from_slice(self.bytes);
        let mut out = Words::untouched();
        let given = Given {
            window: self.window(i),
            numbers: self.numbers,
        };
        let answer = self.call.run(bytes, given, &mut out);
        let stop = self.stop(i);
        if !self.class.allows(stop, answer) {
            return Err(Difference::Status(answer, self.class, stop));
        }
        if let Some(word) = first_unequal(&out.words, &self.words.words) {
            return Err(Difference::Word(word));
        }
        if let Some(byte) = first_unequal(bytes, self.left) {
            return Err(Difference::Byte(byte));
        }
        Ok(())
    }
}
