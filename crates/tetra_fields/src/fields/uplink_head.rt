// What MAC-ACCESS and MAC-DATA begin with, clauses 21.4.2.1 and 21.4.2.3: PDU type 1 or 2, fill 1, encrypted 1, address type 2, address.
ghost use Rattle.std.specs.Prelude.{◌≡◌, ◌+◌, ◌^◌, ◌≤◌, ◌<◌, Err};
ghost use Rattle.tetra_core.specs.Refusal.{refused_by};
ghost use Rattle.codec.specs.Ahead.{Ready, ReadsNext};
ghost use Rattle.codec.specs.Row.{RowIs};
ghost use Rattle.tetra_fields.specs.UplinkAddress.{uplink_address_refusal};
ghost use Rattle.tetra_fields.specs.UplinkHead.{behind_type, head_most, read_uplink_head, body_size, uplink_size, uplink_body_row, uplink_refusal};

use crate::enums::uplink_addr_type::UplinkAddrType;
use crate::fields::uplink_address;
use codec::Ahead;
use tetra_core::address::UplinkAddress;
use tetra_core::refusal::{Reason, Refusal};

// The bits between the PDU type and the address: fill, encrypted and address type.
const BEHIND_TYPE: usize = 4;

// What the PDU type is worth in the word of these and itself.
const TYPE: u64 = 1 << 4;

// The same of fill.
const FILL: u64 = 1 << 3;

// The same of encrypted; the address type is worth 1.
const ENCRYPTED: u64 = 1 << 2;

#[derive(Clone, Copy)]
pub struct UplinkHead {
    pub fill_bits: bool,
    pub encrypted: bool,
    pub addr: UplinkAddress,
}

// Why the head that is ahead is not read, where the bits end before its address.
fn cut_off(a: Ahead, w: usize) -> Refusal
    requires { Ready a head_most × (1 ≤ w) × (w ≤ 2) × (a.left < w + behind_type) }
    ensures { ReadsNext (read_uplink_head w) a head_most (Err result) }
{
    if a.left < w {
        return codec::field_past_end(a.at);
    }
    if a.next_bits(w) != 0 {
        return codec::wrong_type(a.at);
    }
    codec::fields_past_end(&[1, 1, 2], a.left - w, a.at + w)
}

// The head that is ahead of a header whose PDU type has w bits, and what is ahead after it.
pub fn read_uplink_head(a: Ahead, w: usize) -> Result<(Ahead, UplinkHead), Refusal>
    requires { Ready a head_most × (1 ≤ w) × (w ≤ 2) }
    ensures { ReadsNext (read_uplink_head w) a head_most result }
{
    let n = w + BEHIND_TYPE;
    if a.left < n {
        return Err(cut_off(a, w));
    }
    let x = a.next_bits(n);
    if x / TYPE != 0 {
        return Err(codec::wrong_type(a.at));
    }
    let t = UplinkAddrType::from_raw(x);
    let (after, addr) = uplink_address::read_uplink_address(a.advance(n), t)?;
    let head = UplinkHead {
        fill_bits: x / FILL % 2 != 0,
        encrypted: x / ENCRYPTED % 2 != 0,
        addr,
    };
    Ok((after, head))
}

// The bits of a head whose PDU type has w bits.
pub fn uplink_size(w: usize, a: UplinkAddress) -> usize
    requires { w ≤ 2 }
    ensures { (result ≡ uplink_size w a) × (result ≤ head_most) }
{
    w + (BEHIND_TYPE + UplinkAddrType::of(a).width())
}

// Why a header is not written whose other fields may be refused by option, if so.
pub fn uplink_refusal(
    encrypted: bool,
    a: UplinkAddress,
    option: Result<(), Reason>,
) -> Result<(), Reason>
    ensures { refused_by result ≡ uplink_refusal encrypted a (refused_by option) }
{
    uplink_address::encryption_refusal(encrypted, a)?;
    uplink_address::uplink_address_refusal(a)?;
    option
}

// A head as one number. The PDU type is 0 and adds nothing.
pub fn uplink_word(h: UplinkHead) -> u64
    requires { uplink_address_refusal h.addr ≡ 0 }
    ensures { RowIs (uplink_body_row h) (body_size h.addr) result × (result < 2 ^ 28) }
{
    let addr = h.addr;
    let t = UplinkAddrType::of(addr);
    let kind = t.into_raw();
    let head = codec::bit(h.fill_bits) * FILL + (codec::bit(h.encrypted) * ENCRYPTED + kind);
    (head << t.width()) + uplink_address::uplink_number(addr)
}
