// The list of recorded answers, taken apart. A number is one byte below 248, or 247 + n and then n bytes, most significant first.
ghost use Rattle.std.specs.Prelude.{◌+◌, ◌<◌, ◌≡◌, ◌==◌, length, IfOk, OnOk};

use arrayvec::ArrayVec;
use replay_calls::answers::MOST_WORDS;
use replay_calls::calls::UnknownCall;

// What is no list: a number, a record or a page that does not end where it says, or that says what there is not.
#[derive(Clone, Copy)]
pub(crate) struct Malformed;

impl From<UnknownCall> for Malformed {
    fn from(_call: UnknownCall) -> Malformed {
        Malformed
    }
}

// What is left of a page or of a record.
#[derive(Clone, Copy)]
pub(crate) struct Reader<'a> {
    rest: &'a [u8],
}

impl<'a> Reader<'a> {
    pub(crate) fn new(bytes: &'a [u8]) -> Reader<'a>
        ensures { result.rest.now ≡ bytes.now }
    {
        Reader { rest: bytes }
    }

    pub(crate) fn len(&self) -> usize
        ensures { result ≡ length self.now.rest.now }
    {
        self.rest.len()
    }

    pub(crate) fn is_empty(&self) -> bool
        ensures { result ≡ (length self.now.rest.now == 0) }
    {
        self.rest.is_empty()
    }

    pub(crate) fn bytes(&mut self, n: u64) -> Result<&'a [u8], Malformed>
        ensures { IfOk result (λ taken. length self.new.rest.now + n ≡ length self.old.rest.now) }
    {
        let (taken, rest) = self.rest.split_at_checked(n as usize).ok_or(Malformed)?;
        self.rest = rest;
        Ok(taken)
    }

    fn byte(&mut self) -> Result<u8, Malformed>
        ensures { OnOk result (length self.new.rest.now < length self.old.rest.now) }
    {
        let (first, rest) = self.rest.split_first().ok_or(Malformed)?;
        self.rest = rest;
        Ok(*first)
    }

    pub(crate) fn number(&mut self) -> Result<u64, Malformed>
        ensures { OnOk result (length self.new.rest.now < length self.old.rest.now) }
    {
        let first = u64::from(self.byte()?);
        if first < 248 {
            return Ok(first);
        }
        let digits = self.bytes(first - 247)?;
        Ok(digits.iter().fold(0, |v, b| v << 8 | u64::from(*b)))
    }

    pub(crate) fn place(&mut self) -> Result<usize, Malformed> {
        Ok(self.number()? as usize)
    }

    // Bytes, after their count.
    pub(crate) fn counted_bytes(&mut self) -> Result<&'a [u8], Malformed>
        ensures { OnOk result (length self.new.rest.now < length self.old.rest.now) }
    {
        let n = self.number()?;
        self.bytes(n)
    }

    // Numbers, after their count, in place of those that were there.
    pub(crate) fn numbers(&mut self, all: &mut ArrayVec<u64, MOST_WORDS>) -> Result<(), Malformed> {
        all.clear();
        for _ in 0..self.number()? {
            all.try_push(self.number()?).map_err(|_| Malformed)?;
        }
        Ok(())
    }
}
