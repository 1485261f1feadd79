// How a call answers other than recorded.
use crate::record::Class;
use replay_calls::answers::Stop;
use std::fmt;

// A place at which two lists differ, and what stands there.
#[derive(Clone, Copy)]
pub(crate) struct Unequal<T> {
    place: usize,
    ours: T,
    theirs: T,
}

#[derive(Clone, Copy)]
pub(crate) enum Difference {
    // The bit at which the original was cut off, where it was.
    Status(Result<(), Stop>, Class, Option<u64>),
    Word(Unequal<u64>),
    Byte(Unequal<u8>),
}

impl<T: fmt::Display> fmt::Display for Unequal<T> {
    fn fmt<W: fmt::Write>(&self, f: &mut fmt::Formatter<W>) -> fmt::Result {
        write!(
            f,
            "{} is {}, recorded {}",
            self.place, self.ours, self.theirs
        )
    }
}

impl fmt::Display for Difference {
    fn fmt<W: fmt::Write>(&self, f: &mut fmt::Formatter<W>) -> fmt::Result {
        match self {
            Difference::Status(answer, class, stop) => {
                let (number, bit) = match answer {
                    Ok(()) => (0, 0),
                    Err(Stop::Refused(r)) => (r.reason.number(), r.offset),
                    Err(Stop::Malformed) => (255, 0),
                };
                write!(f, "status {number} at bit {bit}, recorded as {class}")?;
                match stop {
                    Some(bit) => write!(f, " at bit {bit}"),
                    None => Ok(()),
                }
            }
            Difference::Word(word) => write!(f, "word {word}"),
            Difference::Byte(byte) => write!(f, "byte {byte}"),
        }
    }
}

// The first place at which two lists differ.
pub(crate) fn first_unequal<T: PartialEq + Copy>(ours: &[T], theirs: &[T]) -> Option<Unequal<T>> {
    let mut pairs = ours.iter().zip(theirs).enumerate();
    let (place, (a, b)) = pairs.find(|(_, (a, b))| a != b)?;
    Some(Unequal {
        place,
        ours: *a,
        theirs: *b,
    })
}
