// Addresses of the MAC. An address names its parts by its case, so that contradictory pairs of the Rust's options cannot be built.
ghost use Rattle.std.specs.Prelude.{◌≡◌};
ghost use Rattle.tetra_core.specs.Address.{uplink_address_type, ssi_address, uplink_ssi_address};
ghost use Rattle.tetra_core.specs.declared.address.SsiType.TheVariants.{Issi};

// What kind of short subscriber identity an SSI is. On the air all three are one: downlink reads give Ssi, uplink reads Issi.
#[derive(Clone, Copy)]
pub enum SsiType {
    // The kind is not known.
    Ssi,
    // Individual.
    Issi,
    // Group.
    Gssi,
}

// The address of a MAC-RESOURCE, clause 21.4.3.1: SSI, USSI and SMI have 24 bits, an event label 10, a usage marker 6.
#[derive(Clone, Copy)]
pub enum DownlinkAddress {
    NullPdu,
    Ssi(SsiType, u32),
    EventLabel(u16),
    Ussi(u32),
    Smi(u32),
    SsiAndEventLabel(SsiType, u32, u16),
    SsiAndUsageMarker(SsiType, u32, u8),
    SmiAndEventLabel(u32, u16),
}

// The address of a MAC-ACCESS or MAC-DATA, clauses 21.4.2.1 and 21.4.2.3.
#[derive(Clone, Copy)]
pub enum UplinkAddress {
    Ssi(SsiType, u32),
    EventLabel(u16),
    Ussi(u32),
    Smi(u32),
}

// An SSI of a kind as an address, as TetraAddress::new of the Rust. A USSI and an SMI are cases of their own.
pub fn new(ssi: u32, ssi_type: SsiType) -> DownlinkAddress
    ensures { result ≡ ssi_address ssi ssi_type }
{
    DownlinkAddress::Ssi(ssi_type, ssi)
}

// An individual SSI as an address.
pub fn issi(ssi: u32) -> DownlinkAddress
    ensures { result ≡ ssi_address ssi Issi }
{
    new(ssi, SsiType::Issi)
}

// The same in the uplink.
pub fn uplink_new(ssi: u32, ssi_type: SsiType) -> UplinkAddress
    ensures { result ≡ uplink_ssi_address ssi ssi_type }
{
    UplinkAddress::Ssi(ssi_type, ssi)
}

pub fn uplink_issi(ssi: u32) -> UplinkAddress
    ensures { result ≡ uplink_ssi_address ssi Issi }
{
    uplink_new(ssi, SsiType::Issi)
}

// The address type of a MAC-ACCESS or MAC-DATA, 2 bits.
pub fn uplink_address_type(a: UplinkAddress) -> u8
    ensures { result ≡ uplink_address_type a }
{
    match a {
        UplinkAddress::Ssi(_, _) => 0,
        UplinkAddress::EventLabel(_) => 1,
        UplinkAddress::Ussi(_) => 2,
        UplinkAddress::Smi(_) => 3,
    }
}
