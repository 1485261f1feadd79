// Clause 21.4.2.1, MAC-ACCESS: PDU type 1, fill 1, encrypted 1, address type 2, address, option flag 1 and, if set, 6 bits more.
ghost use Rattle.std.specs.Prelude.{◌≡◌, ◌≤◌};
ghost use Rattle.tetra_core.specs.Refusal.{refused_by};
ghost use Rattle.codec.specs.Ahead.{Ready, ReadsNext};
ghost use Rattle.codec.specs.Row.{row_bits, size};
ghost use Rattle.mac_access.specs.MacAccess.{chosen_size, option_most, access_most, mac_access_of, is_null_pdu, is_frag_start, read_chosen, read_option, read_mac_access, mac_access_at, option_row, mac_access_row, mac_access_size, option_refusal, mac_access_refusal, mac_access_write, mac_access_written};

use codec::encoded::Encode;
use codec::header::Header;
use codec::{Ahead, encoded, header};
use tetra_core::address::UplinkAddress;
use tetra_core::bitbuffer::{Cursor, Moved, Read};
use tetra_core::refusal::{Reason, Refusal};
use tetra_fields::enums::reservation_requirement::ReservationRequirement;
use tetra_fields::fields::uplink_head;
use tetra_fields::fields::uplink_head::UplinkHead;

// The bits of the PDU type.
const TYPE_BITS: usize = 1;

// The bits of what follows a set option flag.
const CHOSEN_BITS: usize = 6;

// The bits of a set option flag and of what follows it.
const OPTION_BITS: usize = 7;

// What the head is worth before these.
const BEFORE_OPTION: u64 = 1 << 7;

// What it is worth before a flag that is not set.
const BEFORE_FLAG: u64 = 1 << 1;

// What a set option flag is worth.
const OPTION_FLAG: u64 = 1 << 6;

// What the selector is worth; a length behind it is worth 1.
const SELECTOR: u64 = 1 << 5;

// What the fragment flag is worth; the reservation behind it is worth 1.
const FRAGMENT: u64 = 1 << 4;

// What follows the option flag.
#[derive(Clone, Copy)]
pub enum MacAccessOption {
    // The flag is not set.
    Without,
    // 5 bits
    LengthInd(u8),
    // frag_flag, 1 bit, and reservation_req, 4 bits
    CapacityRequest(bool, ReservationRequirement),
}

#[derive(Clone, Copy)]
pub struct MacAccess {
    pub fill_bits: bool,
    pub encrypted: bool,
    pub addr: UplinkAddress,
    pub option: MacAccessOption,
}

// A MAC-ACCESS of its head and its option.
fn header_of(head: UplinkHead, option: MacAccessOption) -> MacAccess
    ensures { result ≡ mac_access_of head option }
{
    let addr = head.addr;
    MacAccess {
        fill_bits: head.fill_bits,
        encrypted: head.encrypted,
        addr,
        option,
    }
}

pub fn is_null_pdu(h: MacAccess) -> bool
    ensures { result ≡ is_null_pdu h.option }
{
    let option = h.option;
    match option {
        MacAccessOption::Without => false,
        MacAccessOption::LengthInd(n) => n == 0,
        MacAccessOption::CapacityRequest(_, _) => false,
    }
}

pub fn is_frag_start(h: MacAccess) -> bool
    ensures { result ≡ is_frag_start h.option }
{
    let option = h.option;
    match option {
        MacAccessOption::Without => false,
        MacAccessOption::LengthInd(_) => false,
        MacAccessOption::CapacityRequest(frag_flag, _) => frag_flag,
    }
}

// What follows a set option flag, which is ahead; and what is ahead after it.
fn read_chosen(a: Ahead) -> Result<(Ahead, MacAccessOption), Refusal>
    requires { Ready a chosen_size }
    ensures { ReadsNext read_chosen a chosen_size result }
{
    if a.left < 1 {
        return Err(codec::field_past_end(a.at));
    }
    if a.left < CHOSEN_BITS {
        if a.next_bits(1) == 0 {
            return Err(codec::field_past_end(a.at + 1));
        }
        return Err(codec::fields_past_end(&[1, 4], a.left - 1, a.at + 1));
    }
    let x = a.next_bits(CHOSEN_BITS);
    let after = a.advance(CHOSEN_BITS);
    if x / SELECTOR % 2 == 0 {
        return Ok((after, MacAccessOption::LengthInd((x % 32) as u8)));
    }
    let req = ReservationRequirement::from_raw(x % 16);
    Ok((
        after,
        MacAccessOption::CapacityRequest(x / FRAGMENT % 2 != 0, req),
    ))
}

// The option flag that is ahead and what follows it, and what is ahead after them.
fn read_option(a: Ahead) -> Result<(Ahead, MacAccessOption), Refusal>
    requires { Ready a option_most }
    ensures { ReadsNext read_option a option_most result }
{
    if a.left < 1 {
        return Err(codec::field_past_end(a.at));
    }
    let after = a.advance(1);
    if a.next_bits(1) == 0 {
        return Ok((after, MacAccessOption::Without));
    }
    read_chosen(after)
}

// A MAC-ACCESS, which is ahead: one word holds it; and what is ahead after it.
fn read_mac_access(a: Ahead) -> Result<(Ahead, MacAccess), Refusal>
    requires { Ready a access_most }
    ensures { ReadsNext read_mac_access a access_most result }
{
    let (behind, head) = uplink_head::read_uplink_head(a, TYPE_BITS)?;
    let (after, option) = read_option(behind)?;
    Ok((after, header_of(head, option)))
}

impl Header for MacAccess {
    ghost reader = { read_mac_access };

    fn read(_s: &[u8], _c: Cursor, a: Ahead) -> Result<(Ahead, MacAccess), Refusal> {
        read_mac_access(a)
    }
}

// Reads a MAC-ACCESS at the cursor.
#[tactic(auto, unfolding(crate::specs::MacAccess::mac_access_at))]
pub fn from_bitbuf(s: &[u8], c: Cursor) -> Read<MacAccess>
    ensures { result ≡ mac_access_at s.now c }
{
    header::from_bitbuf(s, c)
}

// Why an option is not written, if so.
fn option_refusal(option: MacAccessOption) -> Result<(), Reason>
    ensures { refused_by result ≡ option_refusal option }
{
    match option {
        MacAccessOption::Without => Ok(()),
        MacAccessOption::LengthInd(n) => {
            if 31 < n {
                return Err(Reason::ValueTooWide);
            }
            Ok(())
        }
        MacAccessOption::CapacityRequest(_, _) => Ok(()),
    }
}

pub fn mac_access_refusal(h: MacAccess) -> Result<(), Reason>
    ensures { refused_by result ≡ mac_access_refusal h }
{
    let addr = h.addr;
    let option = h.option;
    uplink_head::uplink_refusal(h.encrypted, addr, option_refusal(option))
}

fn option_size(option: MacAccessOption) -> usize
    ensures { (result ≡ size (option_row option)) × (result ≤ option_most) }
{
    match option {
        MacAccessOption::Without => 1,
        MacAccessOption::LengthInd(_) => OPTION_BITS,
        MacAccessOption::CapacityRequest(_, _) => OPTION_BITS,
    }
}

// The bits of a MAC-ACCESS.
pub fn mac_access_size(h: MacAccess) -> usize
    ensures { (result ≡ mac_access_size h) × (result ≤ access_most) }
{
    let addr = h.addr;
    let option = h.option;
    uplink_head::uplink_size(TYPE_BITS, addr) + option_size(option)
}

impl Encode for MacAccess {
    ghost refused = { mac_access_refusal };

    ghost size = { mac_access_size };

    ghost bits = { λ h. row_bits (mac_access_row h) };

    fn refusal(self) -> Result<(), Reason> {
        mac_access_refusal(self)
    }

    fn len(self) -> usize {
        mac_access_size(self)
    }

    fn word(self) -> u64 {
        let addr = self.addr;
        let option = self.option;
        let head = uplink_head::uplink_word(UplinkHead {
            fill_bits: self.fill_bits,
            encrypted: self.encrypted,
            addr,
        });
        match option {
            MacAccessOption::Without => head * BEFORE_FLAG,
            MacAccessOption::LengthInd(n) => {
                head * BEFORE_OPTION + (1 * OPTION_FLAG + (0 * SELECTOR + n as u64))
            }
            MacAccessOption::CapacityRequest(frag_flag, reservation_req) => {
                let frag = codec::bit(frag_flag);
                let req = reservation_req.into_raw();
                head * BEFORE_OPTION + (1 * OPTION_FLAG + (1 * SELECTOR + (frag * FRAGMENT + req)))
            }
        }
    }
}

// Writes a MAC-ACCESS at the cursor.
pub fn to_bitbuf(s: &mut [u8], c: Cursor, h: MacAccess) -> Moved
    ensures { (result ≡ mac_access_write s.old c h) × (s.new ≡ mac_access_written s.old c h) }
{
    encoded::to_bitbuf(s, c, h)
}
