// The C interface of the downlink block. What stands at a bit of it is an entry of 33 words: kind (0 end, 1 MAC-RESOURCE, 2 null PDU, 3 refused
// PDU), first bit; whether it has an end, the bit after it; content start, content end; refusal number, refused field's bit from the PDU's
// first bit; and the header's record of 25 words. What there is not is 0. A library of its own, as tetra_resource is:
// docs/DECISIONS.md, Crates, has the reason.
#![tactic(auto)]

ghost use Rattle.std.specs.Prelude.{◌++◌, ◌≡◌, ◌≤◌, length};
ghost use Rattle.tetra_mac.specs.Reply.{replied, wrote, put_first, moved_reply, value_if};
ghost use Rattle.tetra_block.specs.Block.{no_header, has_end, end_bit, resource_words, refused_words, entry_words, length_known, length_value, writer_moved, block_step_reply, block_add_reply, block_finish_reply};

use block_rules::to_add::LengthIndication;
use mac_block::reader::{BlockEntry, RefusedPdu, ResourcePdu};
use mac_block::writer::Written;
use mac_block::{reader, writer};
use tetra_core::bitbuffer::{Cursor, Moved};
use tetra_mac::record;

const ENTRY_WORDS: usize = 33;

const RESOURCE: u64 = 1;

const NULL_PDU: u64 = 2;

const REFUSED: u64 = 3;

// Puts the words of an entry without a header into out.
fn put_bare(out: &mut [u64], words: &[u64])
    requires { (33 ≤ length out.old) × (length words.now ≡ 8) }
    ensures { out.new ≡ put_first out.old (words.now ++ no_header) }
{
    let header = [0u64; 25];
    record::put_words(out, 0, words);
    record::put_words(out, 8, &header);
}

// Puts a MAC-RESOURCE into out: the bit that give_mac_resource puts before the record is the refused field's, which there is not.
fn put_resource(out: &mut [u64], p: ResourcePdu)
    requires { 33 ≤ length out.old }
    ensures { out.new ≡ put_first out.old (resource_words p) }
{
    let words = [
        RESOURCE,
        p.bit as u64,
        1,
        p.end as u64,
        p.content_start as u64,
        p.content_end as u64,
        0,
    ];
    record::put_words(out, 0, &words);
    tetra_resource::give_mac_resource(&mut out[7..], 0, p.header);
}

fn has_end(e: Option<usize>) -> u64
    ensures { result ≡ has_end e }
{
    match e {
        Some(_) => 1,
        None => 0,
    }
}

fn end_bit(e: Option<usize>) -> u64
    ensures { result ≡ end_bit e }
{
    match e {
        Some(end) => end as u64,
        None => 0,
    }
}

fn put_refused(out: &mut [u64], p: RefusedPdu)
    requires { 33 ≤ length out.old }
    ensures { out.new ≡ put_first out.old (refused_words p) }
{
    let end = p.end;
    let words = [
        REFUSED,
        p.bit as u64,
        has_end(end),
        end_bit(end),
        0,
        0,
        p.refusal.reason.number() as u64,
        p.refusal.offset as u64,
    ];
    put_bare(out, &words);
}

fn put_entry(out: &mut [u64], e: BlockEntry)
    requires { 33 ≤ length out.old }
    ensures { out.new ≡ put_first out.old (entry_words e) }
{
    match e {
        BlockEntry::Resource(p) => put_resource(out, p),
        BlockEntry::Null(bit) => {
            let words = [NULL_PDU, bit as u64, 0, 0, 0, 0, 0, 0];
            put_bare(out, &words);
        }
        BlockEntry::Refused(p) => put_refused(out, p),
    }
}

// What stands at a bit of a block of so many bits.
pub fn tetra_block_step(block: &[u8], bits: usize, bit: usize, out: &mut [u64]) -> u64
    ensures { replied result out.new ≡ block_step_reply block.now bits bit out.old }
{
    if out.len() < ENTRY_WORDS {
        return record::MALFORMED;
    }
    match reader::step(block, bits, bit) {
        Ok(Some(e)) => {
            put_entry(out, e);
            0
        }
        Ok(None) => {
            let words = [0u64; 8];
            put_bare(out, &words);
            0
        }
        Err(r) => record::status(r),
    }
}

// How a PDU's length is written, by its code: 0 counted, 62 or 63 a mark.
fn length_of(code: u64) -> Option<LengthIndication>
    ensures { result ≡ value_if (length_known code) (length_value code) }
{
    match code {
        0 => Some(LengthIndication::Counted),
        62 => Some(LengthIndication::SecondSlotStolen),
        63 => Some(LengthIndication::FragStart),
        _ => None,
    }
}

// The status of a call that writes a block. The writer's bit stands in the block as a cursor's in its window.
fn writer_moved(out: &mut [u64], bits: usize, done: Written) -> u64
    requires { 1 ≤ length out.old }
    ensures { replied result out.new ≡ moved_reply out.old (writer_moved bits done) }
{
    let cursor = Cursor {
        start: 0,
        pos: done.bit,
        end: bits,
    };
    record::moved(
        out,
        Moved {
            cursor,
            answer: done.answer,
        },
    )
}

// Adds a PDU behind those that were added.
pub fn tetra_block_add(
    block: &mut [u8],
    bits: usize,
    bit: usize,
    words: &[u64],
    length: u64,
    content: &[u8],
    content_bits: usize,
    out: &mut [u64],
) -> u64
    ensures { wrote result out.new block.new ≡ block_add_reply block.old bits bit words.now length content.now content_bits out.old }
{
    if out.len() < 1 {
        return record::MALFORMED;
    }
    let Some(indication) = length_of(length) else {
        return record::MALFORMED;
    };
    if !tetra_resource::mac_resource_known(words) {
        return record::MALFORMED;
    }
    let header = tetra_resource::encoded_to_add(words);
    let done = writer::add_encoded(block, bits, bit, header, indication, content, content_bits);
    writer_moved(out, bits, done)
}

// Closes the block behind the PDUs that were added.
pub fn tetra_block_finish(block: &mut [u8], bits: usize, bit: usize, out: &mut [u64]) -> u64
    ensures { wrote result out.new block.new ≡ block_finish_reply block.old bits bit out.old }
{
    if out.len() < 1 {
        return record::MALFORMED;
    }
    let done = writer::finish(block, bits, bit);
    writer_moved(out, bits, done)
}
