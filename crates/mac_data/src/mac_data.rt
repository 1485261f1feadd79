// Clause 21.4.2.3, MAC-DATA: PDU type 2, fill 1, encrypted 1, address type 2, address, selector 1 and 6 bits more.
ghost use Rattle.std.specs.Prelude.{◌≡◌, ◌≤◌};
ghost use Rattle.tetra_core.specs.Refusal.{refused_by};
ghost use Rattle.codec.specs.Ahead.{Ready, ReadsNext};
ghost use Rattle.codec.specs.Row.{row_bits, RowIs};
ghost use Rattle.mac_data.specs.MacData.{option_size, data_most, mac_data_of, read_option, read_mac_data, mac_data_at, option_row, mac_data_row, mac_data_size, option_refusal, mac_data_refusal, mac_data_write, mac_data_written};

use codec::encoded::Encode;
use codec::header::Header;
use codec::{Ahead, encoded, header};
use tetra_core::address::UplinkAddress;
use tetra_core::bitbuffer::{Cursor, Moved, Read};
use tetra_core::refusal::{Reason, Refusal};
use tetra_fields::enums::reservation_requirement::ReservationRequirement;
use tetra_fields::fields::uplink_head;
use tetra_fields::fields::uplink_head::UplinkHead;

// The bits of the PDU type.
const TYPE_BITS: usize = 2;

// The bits of what follows the address.
const OPTION_BITS: usize = 7;

// What the head is worth before these.
const BEFORE_OPTION: u64 = 1 << 7;

// What the selector is worth; a length behind it is worth 1.
const SELECTOR: u64 = 1 << 6;

// What the fragment flag is worth.
const FRAGMENT: u64 = 1 << 5;

// What the reservation is worth; the reserved bit behind it is worth 1.
const RESERVATION: u64 = 1 << 1;

// What follows the address.
#[derive(Clone, Copy)]
pub enum MacDataOption {
    // 6 bits
    LengthInd(u8),
    // frag_flag, 1 bit, and reservation_req, 4 bits; a reserved bit follows
    CapacityRequest(bool, ReservationRequirement),
}

#[derive(Clone, Copy)]
pub struct MacData {
    pub fill_bits: bool,
    pub encrypted: bool,
    pub addr: UplinkAddress,
    pub option: MacDataOption,
}

// A MAC-DATA of its head and its option.
fn header_of(head: UplinkHead, option: MacDataOption) -> MacData
    ensures { result ≡ mac_data_of head option }
{
    let addr = head.addr;
    MacData {
        fill_bits: head.fill_bits,
        encrypted: head.encrypted,
        addr,
        option,
    }
}

// What follows the address, which is ahead; and what is ahead after it.
fn read_option(a: Ahead) -> Result<(Ahead, MacDataOption), Refusal>
    requires { Ready a option_size }
    ensures { ReadsNext read_option a option_size result }
{
    let left = a.left;
    if left < 1 {
        return Err(codec::field_past_end(a.at));
    }
    if left < OPTION_BITS {
        if a.next_bits(1) == 0 {
            return Err(codec::field_past_end(a.at + 1));
        }
        return Err(codec::fields_past_end(&[1, 4, 1], left - 1, a.at + 1));
    }
    let x = a.next_bits(OPTION_BITS);
    let after = a.advance(OPTION_BITS);
    if x / SELECTOR % 2 == 0 {
        return Ok((after, MacDataOption::LengthInd((x % 64) as u8)));
    }
    let req = ReservationRequirement::from_raw(x / RESERVATION % 16);
    Ok((
        after,
        MacDataOption::CapacityRequest(x / FRAGMENT % 2 != 0, req),
    ))
}

// A MAC-DATA, which is ahead: one word holds it; and what is ahead after it.
fn read_mac_data(a: Ahead) -> Result<(Ahead, MacData), Refusal>
    requires { Ready a data_most }
    ensures { ReadsNext read_mac_data a data_most result }
{
    let (behind, head) = uplink_head::read_uplink_head(a, TYPE_BITS)?;
    let (after, option) = read_option(behind)?;
    Ok((after, header_of(head, option)))
}

impl Header for MacData {
    ghost reader = { read_mac_data };

    fn read(_s: &[u8], _c: Cursor, a: Ahead) -> Result<(Ahead, MacData), Refusal> {
        read_mac_data(a)
    }
}

// Reads a MAC-DATA at the cursor.
#[tactic(auto, unfolding(crate::specs::MacData::mac_data_at))]
pub fn from_bitbuf(s: &[u8], c: Cursor) -> Read<MacData>
    ensures { result ≡ mac_data_at s.now c }
{
    header::from_bitbuf(s, c)
}

// Why an option is not written, if so.
fn option_refusal(option: MacDataOption) -> Result<(), Reason>
    ensures { refused_by result ≡ option_refusal option }
{
    match option {
        MacDataOption::LengthInd(n) => {
            if 63 < n {
                return Err(Reason::ValueTooWide);
            }
            Ok(())
        }
        MacDataOption::CapacityRequest(_, _) => Ok(()),
    }
}

// Why a MAC-DATA is not written, if so.
pub fn mac_data_refusal(h: MacData) -> Result<(), Reason>
    ensures { refused_by result ≡ mac_data_refusal h }
{
    let addr = h.addr;
    let option = h.option;
    uplink_head::uplink_refusal(h.encrypted, addr, option_refusal(option))
}

// The bits of a MAC-DATA.
pub fn mac_data_size(h: MacData) -> usize
    ensures { (result ≡ mac_data_size h) × (result ≤ data_most) }
{
    let addr = h.addr;
    uplink_head::uplink_size(TYPE_BITS, addr) + OPTION_BITS
}

// The 7 bits of an option as one number.
fn option_word(option: MacDataOption) -> u64
    requires { option_refusal option ≡ 0 }
    ensures { RowIs (option_row option) option_size result }
{
    match option {
        MacDataOption::LengthInd(n) => 0 * SELECTOR + n as u64,
        MacDataOption::CapacityRequest(frag_flag, reservation_req) => {
            let frag = codec::bit(frag_flag);
            let req = reservation_req.into_raw();
            1 * SELECTOR + (frag * FRAGMENT + (req * RESERVATION + 0))
        }
    }
}

impl Encode for MacData {
    ghost refused = { mac_data_refusal };

    ghost size = { mac_data_size };

    ghost bits = { λ h. row_bits (mac_data_row h) };

    fn refusal(self) -> Result<(), Reason> {
        mac_data_refusal(self)
    }

    fn len(self) -> usize {
        mac_data_size(self)
    }

    fn word(self) -> u64 {
        let addr = self.addr;
        let option = self.option;
        let head = uplink_head::uplink_word(UplinkHead {
            fill_bits: self.fill_bits,
            encrypted: self.encrypted,
            addr,
        });
        head * BEFORE_OPTION + option_word(option)
    }
}

// Writes a MAC-DATA at the cursor.
pub fn to_bitbuf(s: &mut [u8], c: Cursor, h: MacData) -> Moved
    ensures { (result ≡ mac_data_write s.old c h) × (s.new ≡ mac_data_written s.old c h) }
{
    encoded::to_bitbuf(s, c, h)
}
