// Replays the answers of the original that the list, standard input, has over the proved library. It prints how many calls of each kind
// answered alike, and each that did not.
#![tactic(auto)]

mod difference;
mod list;
mod record;
mod tally;

use list::Reader;
use record::{Record, Room};
use std::io;
use std::io::Read;
use tally::Tally;
use text::input;

// The bytes of a page of the list. No record goes from one page to the next.
const PAGE: usize = 16384;

// What is behind so many pages is not read.
const MOST_PAGES: u64 = 1048576;

// Why a page is not replayed to its end.
#[derive(Drop)]
enum Fault {
    // The byte at which a record begins that is none.
    Malformed(usize),
    Io(io::Error),
}

impl From<io::Error> for Fault {
    fn from(e: io::Error) -> Fault {
        Fault::Io(e)
    }
}

// The calls of a record, one for each window that it stands for.
fn replay_record(rt: &impl Print, record: &Record<'_, '_>, tally: &mut Tally) -> io::Result<()> {
    let call = record.call;
    for i in 0..record.windows {
        let checked = record.check(i);
        if let Err(difference) = checked {
            println!(rt; "case {}, {call}: {difference}", tally.cases)?;
        }
        tally.count(call, record.class, checked.is_ok());
    }
    Ok(())
}

// The records of a page up to that of length 0. What is behind that fills up a page, or there is nothing.
fn replay_page(rt: &impl Print, page: &[u8], tally: &mut Tally) -> Result<(), Fault> {
    let mut list = Reader::new(page);
    let mut room = Room::new();
    while !list.is_empty() {
        let at = page.len() - list.len();
        let bytes = list.counted_bytes().map_err(|_| Fault::Malformed(at))?;
        if bytes.is_empty() {
            return match list.len() {
                0 => Ok(()),
                _ if page.len() == PAGE => Ok(()),
                left => Err(Fault::Malformed(page.len() - left)),
            };
        }
        let record = Record::read(bytes, &mut room).map_err(|_| Fault::Malformed(at))?;
        replay_record(rt, &record, tally)?;
    }
    Err(Fault::Malformed(page.len()))
}

// All pages, one after the other: a list has one at least.
fn replay<R: Read>(rt: &impl Print, from: &mut R, tally: &mut Tally) -> io::Result<()> {
    let mut room = [0u8; PAGE];
    for number in 0..MOST_PAGES {
        let n = input::read_full(from, &mut room);
        if n == 0 && 0 < number {
            break;
        }
        match replay_page(rt, &room[..n], tally) {
            Ok(()) => {}
            Err(Fault::Malformed(at)) => {
                return println!(rt; "MALFORMED list, page {number} at byte {at}");
            }
            Err(Fault::Io(e)) => return Err(e),
        }
    }
    Ok(())
}

fn main(rt: HostRuntime) -> io::Result<()> {
    let mut tally = Tally::new();
    replay(&rt, &mut rt.stdin(), &mut tally)?;
    print!(rt; "{tally}")
}
