// The writer of a block. Each call gets the bytes and the bit that the last one left.
ghost use Rattle.std.specs.Prelude.{◌≡◌, ◌+◌, ◌*◌, ◌≤◌, ◌<◌, length};
ghost use Rattle.bits.specs.Bits.{bits_at, put_bits};
ghost use Rattle.tetra_core.specs.Quantity.{octets_of};
ghost use Rattle.tetra_core.specs.Refusal.{refused_by};
ghost use Rattle.codec.specs.Encoded.{size_of, bits_with, Settable};
ghost use Rattle.block_rules.specs.Numbers.{most_bits};
ghost use Rattle.block_rules.specs.Ending.{length_of, pdu_size};
ghost use Rattle.block_rules.specs.Writer.{good_bit, writer_at, finish_bits, finish_refusal, finish_to, check_of, refusal_of, pdu_bits, add_check, add_of, add_to};
ghost use Rattle.block_rules.specs.Downlink.{ending_of, downlink_writer};
ghost use Rattle.mac_block.specs.Answers.{finish_answer, add_answer};
ghost use Rattle.mac_block.specs.Added.{most_header_bits, PuttablePdu, encoded_to, encoded_answer};

use crate::fill;
use bits::{span, word};
use block_rules::to_add::{LengthIndication, ResourceToAdd};
use block_rules::{LEAST_BITS, MOST_BITS};
use codec::encoded;
use codec::encoded::EncodedHeader;
use mac_resource::mac_resource as resource;
use tetra_core::quantity;
use tetra_core::quantity::Octets;
use tetra_core::refusal::Reason;

// The writer's bit after a call, and whether the call was done.
#[derive(Clone, Copy)]
pub struct Written {
    pub bit: usize,
    pub answer: Result<(), Reason>,
}

// The first 64 bits of what closes a block that has room for a null PDU: the null PDU, 00 10 h, and fill.
const CLOSING: u64 = 0x0010800000000000;

// Whether a writer of a block of so many bits can stand at a bit: on an octet, or at the end.
fn good_bit(bits: usize, bit: usize) -> bool
    ensures { result ≡ good_bit bits bit }
{
    if bits < bit {
        return false;
    }
    if bit == bits {
        return true;
    }
    bit % 8 == 0
}

// The octets of a PDU of so many bits of header and content.
fn octets_of(total: usize) -> Octets
    requires { total ≤ most_bits }
    ensures { (result.0 ≡ octets_of total) × (result.0 ≤ 61) }
{
    match quantity::count_octets(total) {
        Ok(counted) => counted.octets,
        // No more than 61 octets are asked for.
        Err(_) => Octets(0),
    }
}

// The length field of a PDU of so many bits of header and content.
fn length_of(indication: LengthIndication, total: usize) -> u8
    requires { total ≤ most_bits }
    ensures { (result ≡ length_of (ending_of indication) total) × (result < 64) }
{
    match indication {
        LengthIndication::Counted => octets_of(total).0,
        LengthIndication::SecondSlotStolen => resource::MAC_RESOURCE_LENGTH_2ND_SLOT_STOLEN,
        LengthIndication::FragStart => resource::MAC_RESOURCE_LENGTH_FRAG_START,
    }
}

// The bits that it takes up where left bits are left to the block's end.
fn pdu_size(indication: LengthIndication, left: usize, total: usize) -> usize
    requires { total ≤ most_bits }
    ensures { result ≡ pdu_size (ending_of indication) left total }
{
    match indication {
        LengthIndication::Counted => {
            let bits = quantity::octets_to_bits(octets_of(total)).0 as usize;
            bits.min(left)
        }
        LengthIndication::SecondSlotStolen => left,
        LengthIndication::FragStart => left,
    }
}

// Why a block is not finished, if so.
fn finish_refusal(len: usize, bits: usize, bit: usize) -> Result<(), Reason>
    ensures { refused_by result ≡ finish_refusal len bits bit }
{
    if !crate::good_block(bits, len) {
        return Err(Reason::BadWindow);
    }
    if !good_bit(bits, bit) {
        return Err(Reason::BadWindow);
    }
    Ok(())
}

// Why a header of so many bits, which may itself be refused, is not added with its content to any block, if so.
fn check_sized(
    header_bits: usize,
    judged: Result<(), Reason>,
    content_bits: usize,
) -> Result<(), Reason>
    requires { header_bits ≤ most_header_bits }
    ensures { refused_by result ≡ check_of header_bits (refused_by judged) content_bits }
{
    // Before the sum, which cannot overflow then.
    if MOST_BITS < content_bits {
        return Err(Reason::Length);
    }
    if MOST_BITS < header_bits + content_bits {
        return Err(Reason::Length);
    }
    judged
}

// Why a PDU with so many bits of content is not added to any block, if so.
pub fn add_check(pdu: ResourceToAdd, content_bits: usize) -> Result<(), Reason>
    ensures { refused_by result ≡ add_check downlink_writer pdu content_bits }
{
    let header = pdu.header;
    let e = resource::encode_to_add(header);
    check_sized(encoded::size(e), e.judged, content_bits)
}

// Why it is not added at a bit of a block, with the content in a slice of so many bytes, if so.
fn add_refusal(
    len: usize,
    bits: usize,
    bit: usize,
    header_bits: usize,
    judged: Result<(), Reason>,
    slice: usize,
    content_bits: usize,
) -> Result<(), Reason>
    requires { header_bits ≤ most_header_bits }
    ensures { refused_by result ≡ refusal_of len bits bit header_bits (refused_by judged) slice content_bits }
{
    finish_refusal(len, bits, bit)?;
    // Whole octets first: eight times the slice, or seven more bits, could overflow.
    if slice < content_bits / 8 + (content_bits % 8 + 7) / 8 {
        return Err(Reason::BadWindow);
    }
    check_sized(header_bits, judged, content_bits)?;
    if bits - bit < header_bits + content_bits {
        return Err(Reason::WritePastEnd);
    }
    Ok(())
}

// A PDU put into a block: header and fill into the part that begins at its octet, and the content between them.
fn put_pdu(
    block: &mut [u8],
    bit: usize,
    header: EncodedHeader,
    length_ind: u8,
    content: &[u8],
    content_bits: usize,
    fill: usize,
)
    requires { PuttablePdu bit header length_ind (length content.now) content_bits fill (length block.old) }
    ensures { block.new ≡ put_bits block.old bit (pdu_bits (bits_with header) length_ind (bits_at content.now 0 content_bits) fill) }
{
    let octet = bit / 8;
    let header_bits = encoded::size(header);
    encoded::put_header(
        &mut block[octet..],
        0,
        Ok(()),
        header,
        length_ind,
        fill != 0,
    );
    span::copy_span(block, bit + header_bits, content, 0, content_bits);
    fill::put_fill(&mut block[octet..], header_bits + content_bits, fill);
}

// A PDU put behind those that were added, and the bit after it. If what is judged refuses it, nothing is put, and the bit stays.
fn put_add(
    block: &mut [u8],
    bits: usize,
    bit: usize,
    header: EncodedHeader,
    indication: LengthIndication,
    content: &[u8],
    content_bits: usize,
    judged: Result<(), Reason>,
) -> usize
    requires { Settable header × (refused_by judged ≡ refusal_of (length block.old) bits bit (size_of header) (refused_by header.judged) (length content.now) content_bits) }
    ensures { (result ≡ (encoded_to bits (writer_at block.old bit) header (ending_of indication) content.now content_bits).bit) × (block.new ≡ (encoded_to bits (writer_at block.old bit) header (ending_of indication) content.now content_bits).bytes) }
{
    if judged.is_err() {
        return bit;
    }
    let total = encoded::size(header) + content_bits;
    let size = pdu_size(indication, bits - bit, total);
    let length_ind = length_of(indication, total);
    put_pdu(
        block,
        bit,
        header,
        length_ind,
        content,
        content_bits,
        size - total,
    );
    bit + size
}

// As add, of a header on its way out.
pub fn add_encoded(
    block: &mut [u8],
    bits: usize,
    bit: usize,
    header: EncodedHeader,
    indication: LengthIndication,
    content: &[u8],
    content_bits: usize,
) -> Written
    requires { Settable header }
    ensures { (result ≡ encoded_answer bits (writer_at block.old bit) header (ending_of indication) content.now content_bits) × (block.new ≡ (encoded_to bits (writer_at block.old bit) header (ending_of indication) content.now content_bits).bytes) }
{
    let len = block.len();
    let slice = content.len();
    let header_bits = encoded::size(header);
    let judged = add_refusal(
        len,
        bits,
        bit,
        header_bits,
        header.judged,
        slice,
        content_bits,
    );
    let after = put_add(
        block,
        bits,
        bit,
        header,
        indication,
        content,
        content_bits,
        judged,
    );
    Written {
        bit: after,
        answer: judged,
    }
}

// Adds a PDU behind those that were added.
pub fn add(
    block: &mut [u8],
    bits: usize,
    bit: usize,
    pdu: ResourceToAdd,
    content: &[u8],
    content_bits: usize,
) -> Written
    ensures { (result ≡ add_answer downlink_writer bits (writer_at block.old bit) (add_of pdu content.now content_bits)) × (block.new ≡ (add_to downlink_writer bits (writer_at block.old bit) (add_of pdu content.now content_bits)).bytes) }
{
    let header = pdu.header;
    let indication = pdu.indication;
    let e = resource::encode_to_add(header);
    add_encoded(block, bits, bit, e, indication, content, content_bits)
}

// What closes a block, put into the left bits of s from pos on: a null PDU if there is room for it, and fill.
fn put_closing(s: &mut [u8], pos: usize, left: usize)
    requires { (pos + left ≤ 8 * length s.old) × (pos + left ≤ 65536) }
    ensures { s.new ≡ put_bits s.old pos (finish_bits left) }
{
    if left < LEAST_BITS {
        fill::put_short_fill(s, pos, left);
        return;
    }
    // One write where a word holds it all.
    if left <= 64 {
        word::put_by_words(s, pos, left, CLOSING >> (64 - left));
        return;
    }
    // Longer ones are rare. put_span has a second caller, put_fill, and so stays out of line.
    word::put_by_words(s, pos, 64, CLOSING);
    span::put_span(s, pos + 64, left - 64, false);
}

// What closes a block, put into it, and the bit after it. If what is judged refuses it, nothing is put, and the bit stays.
fn put_finish(block: &mut [u8], bits: usize, bit: usize, judged: Result<(), Reason>) -> usize
    requires { refused_by judged ≡ finish_refusal (length block.old) bits bit }
    ensures { (result ≡ (finish_to bits (writer_at block.old bit)).bit) × (block.new ≡ (finish_to bits (writer_at block.old bit)).bytes) }
{
    if judged.is_err() {
        return bit;
    }
    // Off an octet nothing is left.
    let octet = bit / 8;
    put_closing(&mut block[octet..], bit % 8, bits - bit);
    bits
}

// Closes the block behind the PDUs that were added.
pub fn finish(block: &mut [u8], bits: usize, bit: usize) -> Written
    ensures { (result ≡ finish_answer bits (writer_at block.old bit)) × (block.new ≡ (finish_to bits (writer_at block.old bit)).bytes) }
{
    let judged = finish_refusal(block.len(), bits, bit);
    let after = put_finish(block, bits, bit, judged);
    Written {
        bit: after,
        answer: judged,
    }
}
