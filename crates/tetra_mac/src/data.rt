// The MAC-DATA as a record of 8 words: that of a MAC-ACCESS with the same address and option, of which there is always one.
ghost use Rattle.std.specs.Prelude.{◌≡◌};
ghost use Rattle.tetra_mac.specs.Reply.{replied, wrote, window};
ghost use Rattle.tetra_mac.specs.MacAccess.{mac_access_value};
ghost use Rattle.tetra_mac.specs.MacData.{access_option, data_option, as_access, as_data, mac_data_words, mac_data_known, mac_data_read_reply, mac_data_write_reply};
ghost use Rattle.tetra_mac.specs.Laws.MacData.{mac_data_long, mac_data_placed};

use crate::access::{OPTION, WORDS};
use crate::record;
use crate::record::Record;
use mac_access::mac_access::{MacAccess, MacAccessOption};
use mac_data::mac_data::{MacData, MacDataOption};
use tetra_core::bitbuffer::Cursor;

fn access_option(o: MacDataOption) -> MacAccessOption
    ensures { result ≡ access_option o }
{
    match o {
        MacDataOption::LengthInd(n) => MacAccessOption::LengthInd(n),
        MacDataOption::CapacityRequest(f, q) => MacAccessOption::CapacityRequest(f, q),
    }
}

fn data_option(o: MacAccessOption) -> MacDataOption
    ensures { result ≡ data_option o }
{
    match o {
        // no record of a MAC-DATA has this
        MacAccessOption::Without => MacDataOption::LengthInd(0),
        MacAccessOption::LengthInd(n) => MacDataOption::LengthInd(n),
        MacAccessOption::CapacityRequest(f, q) => MacDataOption::CapacityRequest(f, q),
    }
}

fn as_access(h: MacData) -> MacAccess
    ensures { result ≡ as_access h }
{
    let addr = h.addr;
    let o = h.option;
    MacAccess {
        fill_bits: h.fill_bits,
        encrypted: h.encrypted,
        addr,
        option: access_option(o),
    }
}

fn as_data(h: MacAccess) -> MacData
    ensures { result ≡ as_data h }
{
    let addr = h.addr;
    let o = h.option;
    MacData {
        fill_bits: h.fill_bits,
        encrypted: h.encrypted,
        addr,
        option: data_option(o),
    }
}

impl Record<WORDS> for MacData {
    ghost words_of = { mac_data_words };

    ghost known = { mac_data_known };

    ghost value = { λ ws. as_data (mac_access_value ws) };

    fn words(h: MacData) -> [u64; WORDS] {
        MacAccess::words(as_access(h))
    }

    fn known(words: &[u64]) -> bool {
        if !MacAccess::known(words) {
            return false;
        }
        words[OPTION] != 0
    }

    fn value(words: &[u64]) -> MacData {
        as_data(MacAccess::value(words))
    }

    ghost long = { mac_data_long };

    ghost placed = { mac_data_placed };
}

#[tactic(auto, unfolding(mac_data::specs::MacData::mac_data_at))]
pub fn tetra_mac_data_read(s: &[u8], start: usize, pos: usize, end: usize, out: &mut [u64]) -> u64
    ensures { replied result out.new ≡ mac_data_read_reply s.now (window start pos end) out.old }
{
    record::read::<WORDS, MacData>(s, Cursor { start, pos, end }, out)
}

pub fn tetra_mac_data_write(
    s: &mut [u8],
    start: usize,
    pos: usize,
    end: usize,
    words: &[u64],
    out: &mut [u64],
) -> u64
    ensures { wrote result out.new s.new ≡ mac_data_write_reply s.old (window start pos end) words.now out.old }
{
    record::write::<WORDS, MacData>(s, Cursor { start, pos, end }, words, out)
}
