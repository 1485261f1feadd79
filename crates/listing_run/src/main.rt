// Lists the block of each file that an argument names, then writes blocks of 488 and 489 bits. Held to the file stdout.
#![tactic(auto)]

use block_lines::file::MOST_BYTES;
use block_lines::listing::MOST_TEXT;
use block_lines::{file, listing};
use block_rules::MOST_BITS;
use block_rules::to_add::{LengthIndication, ResourceToAdd};
use mac_block::writer;
use mac_resource::mac_resource::MacResource;
use std::fs::{File, Files};
use std::io::Write;
use std::rt::Runtime;
use std::{env, io};
use tetra_core::address::{DownlinkAddress, SsiType};

fn list_named<R: Print + Eprint + Files>(rt: &R, name: &str) -> io::Result<()> {
    println!(rt; "{name}")?;
    let mut input = [0u8; MOST_BYTES];
    let got = match File::open(rt, name) {
        Ok(mut opened) => file::read_file(&mut opened, &mut input),
        Err(e) => return eprintln!(rt; "{name}: {e}"),
    };
    let mut out = [0u8; MOST_TEXT];
    let length = file::list_file(&input[..got], &mut out);
    io::writer(rt).write_all(&out[..length])
}

fn list_arguments<R: Runtime>(rt: &R) -> io::Result<()> {
    for name in env::args(rt)?.skip(1) {
        list_named(rt, name.as_str())?;
    }
    Ok(())
}

fn list(rt: &impl Print, block: &[u8]) -> io::Result<()> {
    let mut out = [0u8; MOST_TEXT];
    let length = listing::list_block(block, MOST_BITS, &mut out);
    io::writer(rt).write_all(&out[..length])
}

// A header of 43 bits: SSI 1, no elements.
fn to_ssi_1() -> ResourceToAdd {
    let header = MacResource {
        fill_bits: false,
        pos_of_grant: 0,
        encryption_mode: 0,
        random_access_flag: false,
        length_ind: 0,
        addr: DownlinkAddress::Ssi(SsiType::Ssi, 1),
        power_control_element: None,
        slot_granting_element: None,
        chan_alloc_element: None,
    };
    ResourceToAdd {
        header,
        indication: LengthIndication::Counted,
    }
}

// The length field of a header that begins with these two bytes: 6 bits behind the first 7.
fn length_of(first: u8, second: u8) -> u8 {
    first % 2 * 32 + second / 8
}

// One PDU with so many bits of content, added to a block of 488 bits: its number of octets and the listing, or what refuses it.
fn add_one(rt: &impl Print, content_bits: usize) -> io::Result<()> {
    let content = [255u8; 56];
    let mut block = [0u8; 61];
    let written = writer::add(&mut block, MOST_BITS, 0, to_ssi_1(), &content, content_bits);
    match written.answer {
        Ok(()) => {
            let octets = length_of(block[0], block[1]);
            println!(rt; "add {content_bits} octets {octets}")?;
            list(rt, &block)
        }
        Err(reason) => {
            let number = reason.number();
            println!(rt; "add {content_bits} refused {number}")
        }
    }
}

fn main(rt: HostRuntime) -> io::Result<()> {
    list_arguments(&rt)?;
    // 43 and 445 bits are 488; one more is refused.
    for content_bits in [445, 446] {
        add_one(&rt, content_bits)?;
    }
    Ok(())
}
