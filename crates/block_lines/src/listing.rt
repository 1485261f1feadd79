// The listing of a block: its lines and the rest.
ghost use Rattle.std.specs.Prelude.{length};
ghost use Rattle.text.specs.Counts.{IsPrefixLen};
ghost use Rattle.text.specs.Put.{PutAt, Put, AtStart};
ghost use Rattle.block_lines.specs.Listing.{rest_text, block_text, no_block_text, listing_text};
ghost use Rattle.block_lines.specs.Most.{rest_most, listing_most};

use crate::line;
use block_walk::Walk;
use text::Text;

// The bytes of a listing at the most.
pub const MOST_TEXT: usize = 3776;

fn rest_text(out: &mut Text<'_>, bits: usize)
    ensures { Put rest_most out.old (rest_text bits) out.new }
{
    out.word(b"rest");
    out.space_number(bits as u64);
    out.byte(b'\n');
}

// A line for each entry of a block of so many bits, and the rest.
fn block_text(out: &mut Text<'_>, block: &[u8], bits: usize)
    ensures { Put listing_most out.old (block_text block.now bits) out.new }
{
    let mut walk = Walk::new(block, bits);
    // A step that is refused ends the listing as the walk's end does.
    while let Some(entry) = walk.next().unwrap_or(None) {
        line::line_text(out, line::entry_line(entry));
    }
    rest_text(out, walk.rest());
}

// The one line of what is no block.
pub fn no_block_text(out: &mut Text<'_>)
    ensures { Put (length no_block_text) out.old no_block_text out.new }
{
    out.word(b"0 refused 13 0\n");
}

// The listing of a block of so many bits, behind the text that is there.
pub fn put_listing(out: &mut Text<'_>, block: &[u8], bits: usize)
    ensures { Put listing_most out.old (listing_text block.now bits) out.new }
{
    if mac_block::good_block(bits, block.len()) {
        block_text(out, block, bits);
    } else {
        no_block_text(out);
    }
}

// The listing of a block of so many bits, put into out from a place on. It answers the place behind its text.
pub fn listing_text(out: &mut [u8], at: usize, block: &[u8], bits: usize) -> usize
    ensures { PutAt listing_most out.old at (listing_text block.now bits) result out.new }
{
    let mut text = Text::new(out, at);
    put_listing(&mut text, block, bits);
    text.place()
}

// Puts the listing of a block of so many bits at the start of out, and answers how many bytes it has.
pub fn list_block(block: &[u8], bits: usize, out: &mut [u8; MOST_TEXT]) -> usize
    ensures { AtStart out.old (listing_text block.now bits) result out.new × IsPrefixLen result out.new }
{
    listing_text(out, 0, block, bits)
}
