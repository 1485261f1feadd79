// The calls of the downlink block, for C: each hands on to the call of its name in tetra_block, whose clauses it repeats.
#![tactic(auto)]

ghost use Rattle.std.specs.Prelude.{length, ◌≡◌};
ghost use Rattle.tetra_block.specs.Block.{block_add_reply, block_finish_reply, block_step_reply};
ghost use Rattle.tetra_mac.specs.Reply.{replied, wrote};

#[unsafe(no_mangle)]
pub extern "C" fn tetra_block_step(block: &[u8], bits: usize, bit: usize, out: &mut [u64]) -> u64
    ensures { replied result out.new ≡ block_step_reply block.now bits bit out.old }
{
    tetra_block::tetra_block_step(block, bits, bit, out)
}

#[unsafe(no_mangle)]
pub extern "C" fn tetra_block_add(
    block: &mut [u8],
    bits: usize,
    bit: usize,
    words: &[u64],
    length: u64,
    content: &[u8],
    content_bits: usize,
    out: &mut [u64],
) -> u64
    ensures { wrote result out.new block.new ≡ block_add_reply block.old bits bit words.now length content.now content_bits out.old }
{
    tetra_block::tetra_block_add(block, bits, bit, words, length, content, content_bits, out)
}

#[unsafe(no_mangle)]
pub extern "C" fn tetra_block_finish(
    block: &mut [u8],
    bits: usize,
    bit: usize,
    out: &mut [u64],
) -> u64
    ensures { wrote result out.new block.new ≡ block_finish_reply block.old bits bit out.old }
{
    tetra_block::tetra_block_finish(block, bits, bit, out)
}
