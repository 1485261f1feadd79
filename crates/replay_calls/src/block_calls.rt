// The calls on a block, 112 to 114: the window's pos is the call's bit and its end the block's bits.
use crate::answers::{Stop, Words, status};
use crate::calls::UnknownCall;
use crate::given::Given;

#[derive(Clone, Copy)]
pub enum BlockCall {
    Step = 112,
    Add,
    Finish,
}

impl TryFrom<u64> for BlockCall {
    ghost use Rattle.replay_calls.specs.Calls.{Decodes, block_number};

    type Error = UnknownCall;

    ghost try_from_gives = { Decodes block_number };

    fn try_from(n: u64) -> Result<BlockCall, UnknownCall> {
        match n {
            112 => Ok(BlockCall::Step),
            113 => Ok(BlockCall::Add),
            114 => Ok(BlockCall::Finish),
            _ => Err(UnknownCall),
        }
    }
}

// Of an add the bytes are the content's, as many as its last number says, and then the block's. Behind the record stand the length and the bits
// of content.
fn add(s: &mut [u8], given: Given<'_>, out: &mut Words) -> Result<(), Stop> {
    let c = given.window;
    let words = given.numbers;
    let (length, bits, k) = (given.number(25), given.count(26), given.count(27));
    let Some((content, block)) = s.split_at_mut_checked(k) else {
        return Err(Stop::Malformed);
    };
    let out = &mut out.words;
    status(tetra_block::tetra_block_add(block, c.end, c.pos, words, length, content, bits, out))
}

impl BlockCall {
    pub(crate) fn name(self) -> &'static str {
        match self {
            BlockCall::Step => "block, step",
            BlockCall::Add => "block, add",
            BlockCall::Finish => "block, finish",
        }
    }

    pub(crate) fn run(self, s: &mut [u8], given: Given<'_>, out: &mut Words) -> Result<(), Stop> {
        let c = given.window;
        match self {
            BlockCall::Step => {
                let out = &mut out.words;
                status(tetra_block::tetra_block_step(s, c.end, c.pos, out))
            }
            BlockCall::Add => add(s, given, out),
            BlockCall::Finish => {
                let out = &mut out.words;
                status(tetra_block::tetra_block_finish(s, c.end, c.pos, out))
            }
        }
    }
}
