// What a call is given beside the bytes that it is made on.
use tetra_core::bitbuffer::Cursor;

// A window on the bytes, and the call's numbers; one that is not given is 0.
#[derive(Clone, Copy)]
pub struct Given<'a> {
    pub window: Cursor,
    pub numbers: &'a [u64],
}

impl Given<'_> {
    pub(crate) fn number(self, i: usize) -> u64 {
        self.numbers.get(i).copied().unwrap_or(0)
    }

    pub(crate) fn count(self, i: usize) -> usize {
        self.number(i) as usize
    }

    // An offset is given as its two's complement. The least of all is none that is recorded: it stands for 0.
    pub(crate) fn offset(self, i: usize) -> isize {
        match self.count(i).cast_signed() {
            isize::MIN => 0,
            offset => offset,
        }
    }

    // What is too large for an octet becomes the largest.
    pub(crate) fn octet(self, i: usize) -> u8 {
        u8::try_from(self.number(i)).unwrap_or(u8::MAX)
    }

    // What is too large for an SSI becomes the largest.
    pub(crate) fn ssi(self, i: usize) -> u32 {
        u32::try_from(self.number(i)).unwrap_or(u32::MAX)
    }
}
