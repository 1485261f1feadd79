// Why a call is refused. Takes the place of PduParseErr and of every assertion of the Rust.
ghost use Rattle.std.specs.Prelude.{◌≡◌};
ghost use Rattle.tetra_core.specs.Refusal.{number};

// The reasons, in the order of their numbers, 1 to 14. Where nothing is refused the number is 0.
#[derive(Clone, Copy, Debug, PartialEq, Eq)]
pub enum Reason {
    // A read past the window's end, or of more than 64 bits.
    ReadPastEnd = 1,
    // A write past the window's end or of more than 64 bits; a PDU longer than what is left of its block.
    WritePastEnd = 2,
    // A value wider than its field.
    ValueTooWide = 3,
    // A PDU type that is not the one expected.
    WrongPduType = 4,
    // A channel allocation whose extension flag is set.
    ExtendedCarrier = 5,
    // A channel allocation in the augmented direction.
    Augmented = 6,
    // An uplink usage marker 1 to 3, or one without a code; a traffic marker below 4.
    UsageMarker = 7,
    // A length of 0 octets, of more than 61, or one that a block's rules refuse.
    Length = 8,
    // A null PDU where there can be none, or with a field that carries no meaning in it.
    NullPdu = 9,
    // An SSI, USSI or SMI written with encryption.
    EncryptedAddress = 10,
    // Monitoring pattern 0 without a frame-18 pattern.
    NoFrame18Pattern = 11,
    // The fill flag is set and no 1 follows the header.
    NoFillBit = 12,
    // A window that is not good; a count of bits over the limit or over its bytes.
    BadWindow = 13,
    // A granting delay that is not of 1 to 13 opportunities.
    DelayCount = 14,
}

impl Reason {
    // The number by which C knows it.
    pub fn number(self) -> u8
        ensures { result ≡ number self }
    {
        self as u8
    }
}

// Why a read is refused, and the first bit of the refused field, counted from the header's start.
// A refused write or length has only a reason. The order of fields here, in MacResource and ResourcePdu is chosen so that the parts of an
// answer's cases lie on each other whole: then the compiler keeps answers in registers.
#[derive(Clone, Copy)]
pub struct Refusal {
    pub offset: usize,
    pub reason: Reason,
}
