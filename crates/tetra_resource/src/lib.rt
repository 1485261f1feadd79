// The C interface of MAC-RESOURCE, a record of 25 words: fill bits, position of grant, encryption, random access, length; address type, SSI
// kind, first and second number; whether there is a power control, power control; whether there is a slot grant, its 3 words; whether there
// is a channel allocation, its 9 words. What there is not is read as 0 and not looked at when written. A library apart from tetra_mac: there
// the readers and writers of an element have a caller more, and the compiler would not put them here.
#![tactic(auto)]

ghost use Rattle.std.specs.Prelude.{◌+◌, ◌∷◌, ◌≡◌, ◌≤◌, length};
ghost use Rattle.std.proofs.lemmas.List.Edits.{sets};
ghost use Rattle.mac_resource.specs.Address.{is_null};
ghost use Rattle.optional_elements.specs.Elements.{is_bare};
ghost use Rattle.mac_resource.specs.MacResource.{null_of, elements_of, add_refusal, mac_resource_refusal, EncodesRest, EncodesResource};
ghost use Rattle.tetra_mac.specs.Reply.{replied, wrote, window, put_first, given_reply};
ghost use Rattle.tetra_resource.specs.MacResource.{fixed_words, address_words, power_words, first_words, element_words, mac_resource_words, element_known, element_value, first_fields, address_of_words, power_of_words, assembled, bare_of, mac_resource_known, mac_resource_value, mac_resource_read_reply, mac_resource_write_reply, header_len_reply, update_len_reply};

use channel_allocation::channel_allocation::ChanAllocElement;
use codec::encoded;
use codec::encoded::{Encoded, EncodedHeader};
use codec::piece::Piece;
use mac_resource::mac_resource as resource;
use mac_resource::mac_resource::{LenAndFill, MacResource};
use optional_elements::elements;
use optional_elements::elements::Elements;
use optional_elements::grant_and_allocation::GrantAndAllocation;
use tetra_core::address::DownlinkAddress;
use tetra_core::bitbuffer::Cursor;
use tetra_fields::fields::basic_slotgrant::BasicSlotgrant;
use tetra_mac::allocation::WORDS as ALLOCATION_WORDS;
use tetra_mac::record::Record;
use tetra_mac::slotgrant::WORDS as GRANTING_WORDS;
use tetra_mac::{address, record};

// The places of the record: an element has its flag and, behind it, its own record.
const FILL_BITS: usize = 0;

const POS_OF_GRANT: usize = 1;

const ENCRYPTION_MODE: usize = 2;

const RANDOM_ACCESS: usize = 3;

const LENGTH: usize = 4;

const ADDRESS_TYPE: usize = 5;

const SSI_KIND: usize = 6;

const ADDRESS: usize = 7;

const SECOND_NUMBER: usize = 8;

const POWER: usize = 9;

const POWER_LEVEL: usize = 10;

const GRANTING: usize = 11;

const ALLOCATION: usize = 15;

const WORDS: usize = 25;

// The same in what a read gives, which has the cursor before the record.
const READ_ADDRESS: usize = ADDRESS_TYPE + 1;

const READ_POWER: usize = POWER + 1;

const READ_GRANTING: usize = GRANTING + 1;

const READ_ALLOCATION: usize = ALLOCATION + 1;

const READ_WORDS: usize = WORDS + 1;

// The cursor's bit, and the words of the fields before the address.
fn first_words(at: usize, h: MacResource) -> [u64; 6]
    ensures { result ≡ at ∷ fixed_words h }
{
    [
        at as u64,
        codec::bit(h.fill_bits),
        h.pos_of_grant as u64,
        h.encryption_mode as u64,
        codec::bit(h.random_access_flag),
        h.length_ind as u64,
    ]
}

fn address_words(a: DownlinkAddress) -> [u64; 4]
    ensures { result ≡ address_words a }
{
    match a {
        DownlinkAddress::NullPdu => [0, 0, 0, 0],
        DownlinkAddress::Ssi(k, v) => [1, address::ssi_kind(k), v as u64, 0],
        DownlinkAddress::EventLabel(l) => [2, 0, l as u64, 0],
        DownlinkAddress::Ussi(v) => [3, 0, v as u64, 0],
        DownlinkAddress::Smi(v) => [4, 0, v as u64, 0],
        DownlinkAddress::SsiAndEventLabel(k, v, l) => [5, address::ssi_kind(k), v as u64, l as u64],
        DownlinkAddress::SsiAndUsageMarker(k, v, m) => [
            6,
            address::ssi_kind(k),
            v as u64,
            m as u64,
        ],
        DownlinkAddress::SmiAndEventLabel(v, l) => [7, 0, v as u64, l as u64],
    }
}

fn power_words(p: Option<u8>) -> [u64; 2]
    ensures { result ≡ power_words p }
{
    match p {
        None => [0, 0],
        Some(v) => [1, v as u64],
    }
}

// Puts the cursor's bit and the words 0 to 10 into out, a group at a time, so that no array of them all is built and copied.
fn put_first(out: &mut [u64], at: usize, h: MacResource)
    requires { 26 ≤ length out.old }
    ensures { out.new ≡ put_first out.old (at ∷ first_words h) }
{
    let a = h.addr;
    let p = h.power_control_element;
    let first = first_words(at, h);
    let address = address_words(a);
    let power = power_words(p);
    record::put_words(out, 0, &first);
    record::put_words(out, READ_ADDRESS, &address);
    record::put_words(out, READ_POWER, &power);
}

// Each optional element has the words of its record behind its flag, at a place of its own in out.
fn put_element<const N: usize, T: Record<N>>(out: &mut [u64], at: usize, e: Option<T>)
    requires { at + (N + 1) ≤ length out.old }
    ensures { out.new ≡ sets out.old at (element_words T.words_of N e) }
{
    match e {
        None => {
            let words = [0u64; N];
            out[at] = 0;
            record::put_words(out, at + 1, &words);
        }
        Some(e) => {
            let words = T::words(e);
            out[at] = 1;
            record::put_words(out, at + 1, &words);
        }
    }
}

// Puts the cursor's bit and the words of a MAC-RESOURCE into out.
pub fn give_mac_resource(out: &mut [u64], at: usize, h: MacResource) -> u64
    requires { 26 ≤ length out.old }
    ensures { replied result out.new ≡ given_reply out.old at (mac_resource_words h) }
{
    let g = h.slot_granting_element;
    let a = h.chan_alloc_element;
    put_first(out, at, h);
    put_element::<GRANTING_WORDS, BasicSlotgrant>(out, READ_GRANTING, g);
    put_element::<ALLOCATION_WORDS, ChanAllocElement>(out, READ_ALLOCATION, a);
    0
}

// The same of a null PDU that was read: all but its length is 0.
fn give_null(out: &mut [u64], at: usize, length_ind: u8) -> u64
    requires { 26 ≤ length out.old }
    ensures { replied result out.new ≡ given_reply out.old at (mac_resource_words (null_of length_ind)) }
{
    let first = [at as u64, 0, 0, 0, 0, length_ind as u64];
    let rest = [0u64; 20];
    record::put_words(out, 0, &first);
    record::put_words(out, READ_ADDRESS, &rest);
    0
}

// Whether the words of an element, its flag and those of its record, have no unknown code. Those behind a flag of 0 are not looked at.
fn element_known<const N: usize, T: Record<N>>(words: &[u64]) -> bool
    requires { N + 1 ≤ length words.now }
    ensures { result ≡ element_known T.known N words.now }
{
    if words[0] == 0 {
        return true;
    }
    T::known(&words[1..N + 1])
}

// Whether words are long enough for a MAC-RESOURCE and have no unknown code.
pub fn mac_resource_known(words: &[u64]) -> bool
    ensures { result ≡ mac_resource_known words.now }
{
    if words.len() < WORDS {
        return false;
    }
    if !address::address_known(words[ADDRESS_TYPE], words[SSI_KIND]) {
        return false;
    }
    if !element_known::<GRANTING_WORDS, BasicSlotgrant>(&words[GRANTING..ALLOCATION]) {
        return false;
    }
    element_known::<ALLOCATION_WORDS, ChanAllocElement>(&words[ALLOCATION..WORDS])
}

// The element of words whose codes are known.
fn element_value<const N: usize, T: Record<N>>(words: &[u64]) -> Option<T>
    requires { N + 1 ≤ length words.now }
    ensures { result ≡ element_value T.value N words.now }
{
    if words[0] == 0 {
        return None;
    }
    Some(T::value(&words[1..N + 1]))
}

// The fields before the address.
#[derive(Clone, Copy)]
struct FirstFields {
    fill_bits: bool,
    pos_of_grant: u8,
    encryption_mode: u8,
    random_access_flag: bool,
    length_ind: u8,
}

fn first_fields(words: &[u64]) -> FirstFields
    requires { 25 ≤ length words.now }
    ensures { result ≡ first_fields words.now }
{
    FirstFields {
        fill_bits: words[FILL_BITS] != 0,
        pos_of_grant: record::number8(words[POS_OF_GRANT]),
        encryption_mode: record::number8(words[ENCRYPTION_MODE]),
        random_access_flag: words[RANDOM_ACCESS] != 0,
        length_ind: record::number8(words[LENGTH]),
    }
}

fn address_of(words: &[u64]) -> DownlinkAddress
    requires { 25 ≤ length words.now }
    ensures { result ≡ address_of_words words.now }
{
    address::address_value(
        words[ADDRESS_TYPE],
        words[SSI_KIND],
        words[ADDRESS],
        words[SECOND_NUMBER],
    )
}

fn power_of(words: &[u64]) -> Option<u8>
    requires { 25 ≤ length words.now }
    ensures { result ≡ power_of_words words.now }
{
    record::number_if(words[POWER], record::number8(words[POWER_LEVEL]))
}

fn assembled(
    f: FirstFields,
    addr: DownlinkAddress,
    power_control_element: Option<u8>,
    slot_granting_element: Option<BasicSlotgrant>,
    chan_alloc_element: Option<ChanAllocElement>,
) -> MacResource
    ensures { result ≡ assembled f addr power_control_element slot_granting_element chan_alloc_element }
{
    MacResource {
        fill_bits: f.fill_bits,
        pos_of_grant: f.pos_of_grant,
        encryption_mode: f.encryption_mode,
        random_access_flag: f.random_access_flag,
        length_ind: f.length_ind,
        addr,
        power_control_element,
        slot_granting_element,
        chan_alloc_element,
    }
}

// The MAC-RESOURCE of words whose codes are known.
pub fn mac_resource_value(words: &[u64]) -> MacResource
    requires { 25 ≤ length words.now }
    ensures { result ≡ mac_resource_value words.now }
{
    assembled(
        first_fields(words),
        address_of(words),
        power_of(words),
        element_value::<GRANTING_WORDS, BasicSlotgrant>(&words[GRANTING..ALLOCATION]),
        element_value::<ALLOCATION_WORDS, ChanAllocElement>(&words[ALLOCATION..WORDS]),
    )
}

// To write, a header is encoded from its words: its front as that of a header without elements, so that an element is put together only
// where there is one.

// The words' header without its elements.
fn bare_of(words: &[u64]) -> MacResource
    requires { 25 ≤ length words.now }
    ensures { result ≡ bare_of words.now }
{
    assembled(first_fields(words), address_of(words), None, None, None)
}

// Whether the words' header has no element. Most have none: asked of the words, it saves them the elements.
fn no_element(words: &[u64]) -> bool
    requires { 25 ≤ length words.now }
    ensures { result ≡ is_bare (elements_of (mac_resource_value words.now)) }
{
    if words[POWER] != 0 {
        return false;
    }
    if words[GRANTING] != 0 {
        return false;
    }
    words[ALLOCATION] == 0
}

// What stands behind the address of the words' header, which is null or is not.
fn rest_of(words: &[u64], null: bool) -> Encoded
    requires { (25 ≤ length words.now) × (null ≡ is_null (mac_resource_value words.now).addr) }
    ensures { EncodesRest (mac_resource_value words.now) result }
{
    if null {
        return Encoded {
            judged: Ok(()),
            piece: Piece { value: 0, bits: 0 },
        };
    }
    if no_element(words) {
        return Encoded {
            judged: Ok(()),
            piece: Piece {
                value: 0,
                bits: elements::FLAGS,
            },
        };
    }
    let power_control_element = power_of(words);
    let slot_granting_element = element_value::<GRANTING_WORDS, BasicSlotgrant>(
        &words[GRANTING..ALLOCATION],
    );
    let chan_alloc_element = element_value::<ALLOCATION_WORDS, ChanAllocElement>(
        &words[ALLOCATION..WORDS],
    );
    elements::elements_encoded(Elements {
        power_control_element,
        grant_and_allocation: GrantAndAllocation {
            slot_granting_element,
            chan_alloc_element,
        },
    })
}

// The words' header on its way out, alone.
fn encoded_alone(words: &[u64]) -> EncodedHeader
    requires { 25 ≤ length words.now }
    ensures { EncodesResource (mac_resource_refusal (mac_resource_value words.now)) (mac_resource_value words.now) result }
{
    let h = bare_of(words);
    let front = resource::front_alone(h);
    let rest = rest_of(words, resource::is_null_pdu(h));
    resource::whole(resource::alone_refusal(h), front, rest)
}

// The same into a block.
pub fn encoded_to_add(words: &[u64]) -> EncodedHeader
    requires { 25 ≤ length words.now }
    ensures { EncodesResource (add_refusal (mac_resource_value words.now)) (mac_resource_value words.now) result }
{
    let h = bare_of(words);
    let front = resource::front_to_add(h);
    let rest = rest_of(words, resource::is_null_pdu(h));
    resource::whole(resource::null_added(h), front, rest)
}

pub fn tetra_mac_resource_read(
    s: &[u8],
    start: usize,
    pos: usize,
    end: usize,
    out: &mut [u64],
) -> u64
    ensures { replied result out.new ≡ mac_resource_read_reply s.now (window start pos end) out.old }
{
    if out.len() < READ_WORDS {
        return record::MALFORMED;
    }
    let done = resource::from_bitbuf(s, Cursor { start, pos, end });
    let at = done.cursor.pos;
    match done.answer {
        Ok(h) => {
            if resource::is_null_pdu(h) {
                return give_null(out, at, h.length_ind);
            }
            give_mac_resource(out, at, h)
        }
        Err(r) => record::deny(out, at, r),
    }
}

pub fn tetra_mac_resource_write(
    s: &mut [u8],
    start: usize,
    pos: usize,
    end: usize,
    words: &[u64],
    out: &mut [u64],
) -> u64
    ensures { wrote result out.new s.new ≡ mac_resource_write_reply s.old (window start pos end) words.now out.old }
{
    if out.len() < 1 {
        return record::MALFORMED;
    }
    if !mac_resource_known(words) {
        return record::MALFORMED;
    }
    let f = first_fields(words);
    let e = encoded_alone(words);
    let done = encoded::write_header(s, Cursor { start, pos, end }, e, f.length_ind, f.fill_bits);
    record::moved(out, done)
}

// The bits that a MAC-RESOURCE is written as.
pub fn tetra_mac_resource_compute_header_len(words: &[u64], out: &mut [u64]) -> u64
    ensures { replied result out.new ≡ header_len_reply words.now out.old }
{
    if out.len() < 1 {
        return record::MALFORMED;
    }
    if !mac_resource_known(words) {
        return record::MALFORMED;
    }
    let h = mac_resource_value(words);
    record::counted(out, resource::compute_header_len(h))
}

// The length of a MAC-RESOURCE with sdu_len bits of content, its fill flag and its fill bits.
pub fn tetra_mac_resource_len_and_fill(words: &[u64], sdu_len: usize, out: &mut [u64]) -> u64
    ensures { replied result out.new ≡ update_len_reply words.now sdu_len out.old }
{
    if out.len() < 3 {
        return record::MALFORMED;
    }
    if !mac_resource_known(words) {
        return record::MALFORMED;
    }
    let h = mac_resource_value(words);
    match resource::update_len_and_fill_ind(h, sdu_len) {
        Ok(n) => {
            out[0] = n.octets.0 as u64;
            out[1] = codec::bit(n.fill_bits);
            out[2] = n.fill.0 as u64;
            0
        }
        Err(reason) => reason.number() as u64,
    }
}
