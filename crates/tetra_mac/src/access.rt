// The MAC-ACCESS as a record of 8 words: fill bits, encrypted, address type, SSI kind, address number, option, length or fragment flag,
// reservation code.
ghost use Rattle.std.specs.Prelude.{◌≡◌, ◌≤◌, length};
ghost use Rattle.tetra_mac.specs.Reply.{replied, wrote, window};
ghost use Rattle.tetra_mac.specs.MacAccess.{option_kind, option_first, option_reservation, option_known, option_value, mac_access_words, mac_access_known, mac_access_value, mac_access_read_reply, mac_access_write_reply};
ghost use Rattle.tetra_mac.specs.Laws.MacAccess.{mac_access_long, mac_access_placed};

use crate::record::Record;
use crate::{address, record};
use mac_access::mac_access::{MacAccess, MacAccessOption};
use tetra_core::bitbuffer::Cursor;
use tetra_fields::enums::reservation_requirement::ReservationRequirement;
use tetra_fields::fields::uplink_address;

// The places of the record, which MAC-DATA has too, and its words; a read has the cursor before them.
const FILL_BITS: usize = 0;

const ENCRYPTED: usize = 1;

const ADDRESS_TYPE: usize = 2;

const SSI_KIND: usize = 3;

const ADDRESS: usize = 4;

pub(crate) const OPTION: usize = 5;

const OPTION_FIRST: usize = 6;

const RESERVATION: usize = 7;

pub(crate) const WORDS: usize = 8;

fn option_kind(o: MacAccessOption) -> u64
    ensures { result ≡ option_kind o }
{
    match o {
        MacAccessOption::Without => 0,
        MacAccessOption::LengthInd(_) => 1,
        MacAccessOption::CapacityRequest(_, _) => 2,
    }
}

// The length or the fragment flag.
fn option_first(o: MacAccessOption) -> u64
    ensures { result ≡ option_first o }
{
    match o {
        MacAccessOption::Without => 0,
        MacAccessOption::LengthInd(n) => n as u64,
        MacAccessOption::CapacityRequest(frag_flag, _) => codec::bit(frag_flag),
    }
}

fn option_reservation(o: MacAccessOption) -> u64
    ensures { result ≡ option_reservation o }
{
    match o {
        MacAccessOption::Without => 0,
        MacAccessOption::LengthInd(_) => 0,
        MacAccessOption::CapacityRequest(_, q) => q.into_raw(),
    }
}

fn option_value(option: u64, first: u64, reservation: u64) -> MacAccessOption
    ensures { result ≡ option_value option first reservation }
{
    match option {
        0 => MacAccessOption::Without,
        1 => MacAccessOption::LengthInd(record::number8(first)),
        _ => MacAccessOption::CapacityRequest(
            first != 0,
            ReservationRequirement::from_raw(reservation),
        ),
    }
}

// Whether there is such an option and, where it has one, such a reservation requirement.
fn option_known(option: u64, reservation: u64) -> bool
    ensures { result ≡ option_known option reservation }
{
    match option {
        0 => true,
        1 => true,
        2 => reservation < 16,
        _ => false,
    }
}

impl Record<WORDS> for MacAccess {
    ghost words_of = { mac_access_words };

    ghost known = { mac_access_known };

    ghost value = { mac_access_value };

    fn words(h: MacAccess) -> [u64; WORDS] {
        let a = h.addr;
        let o = h.option;
        [
            codec::bit(h.fill_bits),
            codec::bit(h.encrypted),
            tetra_core::address::uplink_address_type(a) as u64,
            address::uplink_kind(a),
            uplink_address::uplink_number(a),
            option_kind(o),
            option_first(o),
            option_reservation(o),
        ]
    }

    fn known(words: &[u64]) -> bool {
        if words.len() < WORDS {
            return false;
        }
        if !address::uplink_known(words[ADDRESS_TYPE], words[SSI_KIND]) {
            return false;
        }
        option_known(words[OPTION], words[RESERVATION])
    }

    fn value(words: &[u64]) -> MacAccess {
        MacAccess {
            fill_bits: words[FILL_BITS] != 0,
            encrypted: words[ENCRYPTED] != 0,
            addr: address::uplink_value(words[ADDRESS_TYPE], words[SSI_KIND], words[ADDRESS]),
            option: option_value(words[OPTION], words[OPTION_FIRST], words[RESERVATION]),
        }
    }

    ghost long = { mac_access_long };

    ghost placed = { mac_access_placed };
}

#[tactic(auto, unfolding(mac_access::specs::MacAccess::mac_access_at))]
pub fn tetra_mac_access_read(s: &[u8], start: usize, pos: usize, end: usize, out: &mut [u64]) -> u64
    ensures { replied result out.new ≡ mac_access_read_reply s.now (window start pos end) out.old }
{
    record::read::<WORDS, MacAccess>(s, Cursor { start, pos, end }, out)
}

pub fn tetra_mac_access_write(
    s: &mut [u8],
    start: usize,
    pos: usize,
    end: usize,
    words: &[u64],
    out: &mut [u64],
) -> u64
    ensures { wrote result out.new s.new ≡ mac_access_write_reply s.old (window start pos end) words.now out.old }
{
    record::write::<WORDS, MacAccess>(s, Cursor { start, pos, end }, words, out)
}
