// The calls of bits and of each header codec but MAC-RESOURCE, for C: each hands on to the call of its name in tetra_mac, whose clauses it repeats.
#![tactic(auto)]

ghost use Rattle.std.specs.Prelude.{◌≡◌};
ghost use Rattle.tetra_core.specs.BitBuffer.{peek_bits_posoffset, read_bits};
ghost use Rattle.tetra_mac.specs.AccessAssign.{access_assign_read_reply, access_assign_write_reply};
ghost use Rattle.tetra_mac.specs.Bits.{bits_read_reply, bits_write_reply};
ghost use Rattle.tetra_mac.specs.ChannelAllocation.{channel_allocation_len_reply, channel_allocation_read_reply, channel_allocation_write_reply};
ghost use Rattle.tetra_mac.specs.MacAccess.{mac_access_read_reply, mac_access_write_reply};
ghost use Rattle.tetra_mac.specs.MacData.{mac_data_read_reply, mac_data_write_reply};
ghost use Rattle.tetra_mac.specs.Reply.{replied, window, wrote};
ghost use Rattle.tetra_mac.specs.Slotgrant.{slotgrant_read_reply, slotgrant_write_reply};

#[unsafe(no_mangle)]
pub extern "C" fn tetra_mac_access_read(
    s: &[u8],
    start: usize,
    pos: usize,
    end: usize,
    out: &mut [u64],
) -> u64
    ensures { replied result out.new ≡ mac_access_read_reply s.now (window start pos end) out.old }
{
    tetra_mac::access::tetra_mac_access_read(s, start, pos, end, out)
}

#[unsafe(no_mangle)]
pub extern "C" fn tetra_mac_access_write(
    s: &mut [u8],
    start: usize,
    pos: usize,
    end: usize,
    words: &[u64],
    out: &mut [u64],
) -> u64
    ensures { wrote result out.new s.new ≡ mac_access_write_reply s.old (window start pos end) words.now out.old }
{
    tetra_mac::access::tetra_mac_access_write(s, start, pos, end, words, out)
}

#[unsafe(no_mangle)]
pub extern "C" fn tetra_channel_allocation_read(
    s: &[u8],
    start: usize,
    pos: usize,
    end: usize,
    out: &mut [u64],
) -> u64
    ensures { replied result out.new ≡ channel_allocation_read_reply s.now (window start pos end) out.old }
{
    tetra_mac::allocation::tetra_channel_allocation_read(s, start, pos, end, out)
}

#[unsafe(no_mangle)]
pub extern "C" fn tetra_channel_allocation_write(
    s: &mut [u8],
    start: usize,
    pos: usize,
    end: usize,
    words: &[u64],
    out: &mut [u64],
) -> u64
    ensures { wrote result out.new s.new ≡ channel_allocation_write_reply s.old (window start pos end) words.now out.old }
{
    tetra_mac::allocation::tetra_channel_allocation_write(s, start, pos, end, words, out)
}

#[unsafe(no_mangle)]
pub extern "C" fn tetra_channel_allocation_len(words: &[u64], out: &mut [u64]) -> u64
    ensures { replied result out.new ≡ channel_allocation_len_reply words.now out.old }
{
    tetra_mac::allocation::tetra_channel_allocation_len(words, out)
}

#[unsafe(no_mangle)]
pub extern "C" fn tetra_access_assign_read(
    s: &[u8],
    start: usize,
    pos: usize,
    end: usize,
    out: &mut [u64],
) -> u64
    ensures { replied result out.new ≡ access_assign_read_reply s.now (window start pos end) out.old }
{
    tetra_mac::assign::tetra_access_assign_read(s, start, pos, end, out)
}

#[unsafe(no_mangle)]
pub extern "C" fn tetra_access_assign_write(
    s: &mut [u8],
    start: usize,
    pos: usize,
    end: usize,
    words: &[u64],
    out: &mut [u64],
) -> u64
    ensures { wrote result out.new s.new ≡ access_assign_write_reply s.old (window start pos end) words.now out.old }
{
    tetra_mac::assign::tetra_access_assign_write(s, start, pos, end, words, out)
}

#[unsafe(no_mangle)]
pub extern "C" fn tetra_read_bits(
    s: &[u8],
    start: usize,
    pos: usize,
    end: usize,
    num_bits: usize,
    out: &mut [u64],
) -> u64
    ensures { replied result out.new ≡ bits_read_reply (read_bits s.now (window start pos end) num_bits) out.old }
{
    tetra_mac::bitbuffer::tetra_read_bits(s, start, pos, end, num_bits, out)
}

#[unsafe(no_mangle)]
pub extern "C" fn tetra_peek_bits_posoffset(
    s: &[u8],
    start: usize,
    pos: usize,
    end: usize,
    offset: isize,
    num_bits: usize,
    out: &mut [u64],
) -> u64
    ensures { replied result out.new ≡ bits_read_reply (peek_bits_posoffset s.now (window start pos end) offset num_bits) out.old }
{
    tetra_mac::bitbuffer::tetra_peek_bits_posoffset(s, start, pos, end, offset, num_bits, out)
}

#[unsafe(no_mangle)]
pub extern "C" fn tetra_write_bits(
    s: &mut [u8],
    start: usize,
    pos: usize,
    end: usize,
    value: u64,
    num_bits: usize,
    out: &mut [u64],
) -> u64
    ensures { wrote result out.new s.new ≡ bits_write_reply s.old (window start pos end) value num_bits out.old }
{
    tetra_mac::bitbuffer::tetra_write_bits(s, start, pos, end, value, num_bits, out)
}

#[unsafe(no_mangle)]
pub extern "C" fn tetra_mac_data_read(
    s: &[u8],
    start: usize,
    pos: usize,
    end: usize,
    out: &mut [u64],
) -> u64
    ensures { replied result out.new ≡ mac_data_read_reply s.now (window start pos end) out.old }
{
    tetra_mac::data::tetra_mac_data_read(s, start, pos, end, out)
}

#[unsafe(no_mangle)]
pub extern "C" fn tetra_mac_data_write(
    s: &mut [u8],
    start: usize,
    pos: usize,
    end: usize,
    words: &[u64],
    out: &mut [u64],
) -> u64
    ensures { wrote result out.new s.new ≡ mac_data_write_reply s.old (window start pos end) words.now out.old }
{
    tetra_mac::data::tetra_mac_data_write(s, start, pos, end, words, out)
}

#[unsafe(no_mangle)]
pub extern "C" fn tetra_slotgrant_read(
    s: &[u8],
    start: usize,
    pos: usize,
    end: usize,
    out: &mut [u64],
) -> u64
    ensures { replied result out.new ≡ slotgrant_read_reply s.now (window start pos end) out.old }
{
    tetra_mac::slotgrant::tetra_slotgrant_read(s, start, pos, end, out)
}

#[unsafe(no_mangle)]
pub extern "C" fn tetra_slotgrant_write(
    s: &mut [u8],
    start: usize,
    pos: usize,
    end: usize,
    words: &[u64],
    out: &mut [u64],
) -> u64
    ensures { wrote result out.new s.new ≡ slotgrant_write_reply s.old (window start pos end) words.now out.old }
{
    tetra_mac::slotgrant::tetra_slotgrant_write(s, start, pos, end, words, out)
}
