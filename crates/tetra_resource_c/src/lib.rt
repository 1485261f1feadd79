// The calls of MAC-RESOURCE, for C: each hands on to the call of its name in tetra_resource, whose clauses it repeats.
#![tactic(auto)]

ghost use Rattle.std.specs.Prelude.{◌≡◌};
ghost use Rattle.tetra_mac.specs.Reply.{replied, window, wrote};
ghost use Rattle.tetra_resource.specs.MacResource.{header_len_reply, mac_resource_read_reply, mac_resource_write_reply, update_len_reply};

#[unsafe(no_mangle)]
pub extern "C" fn tetra_mac_resource_read(
    s: &[u8],
    start: usize,
    pos: usize,
    end: usize,
    out: &mut [u64],
) -> u64
    ensures { replied result out.new ≡ mac_resource_read_reply s.now (window start pos end) out.old }
{
    tetra_resource::tetra_mac_resource_read(s, start, pos, end, out)
}

#[unsafe(no_mangle)]
pub extern "C" fn tetra_mac_resource_write(
    s: &mut [u8],
    start: usize,
    pos: usize,
    end: usize,
    words: &[u64],
    out: &mut [u64],
) -> u64
    ensures { wrote result out.new s.new ≡ mac_resource_write_reply s.old (window start pos end) words.now out.old }
{
    tetra_resource::tetra_mac_resource_write(s, start, pos, end, words, out)
}

#[unsafe(no_mangle)]
pub extern "C" fn tetra_mac_resource_compute_header_len(words: &[u64], out: &mut [u64]) -> u64
    ensures { replied result out.new ≡ header_len_reply words.now out.old }
{
    tetra_resource::tetra_mac_resource_compute_header_len(words, out)
}

#[unsafe(no_mangle)]
pub extern "C" fn tetra_mac_resource_len_and_fill(
    words: &[u64],
    sdu_len: usize,
    out: &mut [u64],
) -> u64
    ensures { replied result out.new ≡ update_len_reply words.now sdu_len out.old }
{
    tetra_resource::tetra_mac_resource_len_and_fill(words, sdu_len, out)
}
