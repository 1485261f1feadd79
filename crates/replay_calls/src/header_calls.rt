// The calls of the C interface but those on blocks: 0 to 42.
use crate::answers::{Stop, Words, read_status, status};
use crate::calls::UnknownCall;
use crate::given::Given;
use mac_resource::mac_resource::MacResource;
use tetra_core::bitbuffer::Cursor;
use tetra_mac::{access, allocation, assign, bitbuffer, data, slotgrant};

// What is read, by the numbers 0 to 5, and written, by 16 to 21.
#[derive(Clone, Copy)]
pub enum Kind {
    SlotGrant,
    ChannelAllocation,
    MacResource,
    AccessAssign,
    MacAccess,
    MacData,
}

// The bit buffer's calls.
#[derive(Clone, Copy)]
pub enum BitsCall {
    ReadBits = 32,
    PeekBitsPosoffset,
    WriteBits,
}

// How long a channel allocation or a MAC-RESOURCE is.
#[derive(Clone, Copy)]
pub enum LengthCall {
    ComputeLen = 40,
    ComputeHeaderLen,
    UpdateLenAndFillInd,
}

impl TryFrom<u64> for Kind {
    ghost use Rattle.replay_calls.specs.Calls.{Decodes, kind_number};

    type Error = UnknownCall;

    ghost try_from_gives = { Decodes kind_number };

    fn try_from(n: u64) -> Result<Kind, UnknownCall> {
        match n {
            0 => Ok(Kind::SlotGrant),
            1 => Ok(Kind::ChannelAllocation),
            2 => Ok(Kind::MacResource),
            3 => Ok(Kind::AccessAssign),
            4 => Ok(Kind::MacAccess),
            5 => Ok(Kind::MacData),
            _ => Err(UnknownCall),
        }
    }
}

impl TryFrom<u64> for BitsCall {
    ghost use Rattle.replay_calls.specs.Calls.{Decodes, bits_number};

    type Error = UnknownCall;

    ghost try_from_gives = { Decodes bits_number };

    fn try_from(n: u64) -> Result<BitsCall, UnknownCall> {
        match n {
            32 => Ok(BitsCall::ReadBits),
            33 => Ok(BitsCall::PeekBitsPosoffset),
            34 => Ok(BitsCall::WriteBits),
            _ => Err(UnknownCall),
        }
    }
}

impl TryFrom<u64> for LengthCall {
    ghost use Rattle.replay_calls.specs.Calls.{Decodes, length_number};

    type Error = UnknownCall;

    ghost try_from_gives = { Decodes length_number };

    fn try_from(n: u64) -> Result<LengthCall, UnknownCall> {
        match n {
            40 => Ok(LengthCall::ComputeLen),
            41 => Ok(LengthCall::ComputeHeaderLen),
            42 => Ok(LengthCall::UpdateLenAndFillInd),
            _ => Err(UnknownCall),
        }
    }
}

impl Kind {
    pub(crate) fn name(self) -> &'static str {
        match self {
            Kind::SlotGrant => "slot grant",
            Kind::ChannelAllocation => "channel allocation",
            Kind::MacResource => "MAC-RESOURCE",
            Kind::AccessAssign => "ACCESS-ASSIGN",
            Kind::MacAccess => "MAC-ACCESS",
            Kind::MacData => "MAC-DATA",
        }
    }

    pub(crate) fn read(self, s: &[u8], given: Given<'_>, out: &mut Words) -> Result<(), Stop> {
        let Cursor { start, pos, end } = given.window;
        let out = &mut out.words;
        read_status(match self {
            Kind::SlotGrant => slotgrant::tetra_slotgrant_read(s, start, pos, end, out),
            Kind::ChannelAllocation => {
                allocation::tetra_channel_allocation_read(s, start, pos, end, out)
            }
            Kind::MacResource => tetra_resource::tetra_mac_resource_read(s, start, pos, end, out),
            Kind::AccessAssign => assign::tetra_access_assign_read(s, start, pos, end, out),
            Kind::MacAccess => access::tetra_mac_access_read(s, start, pos, end, out),
            Kind::MacData => data::tetra_mac_data_read(s, start, pos, end, out),
        })
    }

    pub(crate) fn write(self, s: &mut [u8], given: Given<'_>, out: &mut Words) -> Result<(), Stop> {
        let Cursor { start, pos, end } = given.window;
        let n = given.numbers;
        let out = &mut out.words;
        status(match self {
            Kind::SlotGrant => slotgrant::tetra_slotgrant_write(s, start, pos, end, n, out),
            Kind::ChannelAllocation => {
                allocation::tetra_channel_allocation_write(s, start, pos, end, n, out)
            }
            Kind::MacResource => {
                tetra_resource::tetra_mac_resource_write(s, start, pos, end, n, out)
            }
            Kind::AccessAssign => assign::tetra_access_assign_write(s, start, pos, end, n, out),
            Kind::MacAccess => access::tetra_mac_access_write(s, start, pos, end, n, out),
            Kind::MacData => data::tetra_mac_data_write(s, start, pos, end, n, out),
        })
    }
}

impl BitsCall {
    pub(crate) fn name(self) -> &'static str {
        match self {
            BitsCall::ReadBits => "read_bits",
            BitsCall::PeekBitsPosoffset => "peek_bits_posoffset",
            BitsCall::WriteBits => "write_bits",
        }
    }

    pub(crate) fn run(self, s: &mut [u8], given: Given<'_>, out: &mut Words) -> Result<(), Stop> {
        let Cursor { start, pos, end } = given.window;
        let out = &mut out.words;
        match self {
            BitsCall::ReadBits => {
                let n = given.count(0);
                read_status(bitbuffer::tetra_read_bits(s, start, pos, end, n, out))
            }
            BitsCall::PeekBitsPosoffset => {
                let (offset, n) = (given.offset(0), given.count(1));
                read_status(bitbuffer::tetra_peek_bits_posoffset(
                    s, start, pos, end, offset, n, out,
                ))
            }
            BitsCall::WriteBits => {
                let (value, n) = (given.number(0), given.count(1));
                status(bitbuffer::tetra_write_bits(s, start, pos, end, value, n, out))
            }
        }
    }
}

impl LengthCall {
    pub(crate) fn name(self) -> &'static str {
        match self {
            LengthCall::ComputeLen => "compute_len",
            LengthCall::ComputeHeaderLen => "compute_header_len",
            LengthCall::UpdateLenAndFillInd => "update_len_and_fill_ind",
        }
    }

    // The bits of content stand behind the record that they are counted with.
    pub(crate) fn run(self, given: Given<'_>, out: &mut Words) -> Result<(), Stop> {
        let n = given.numbers;
        let out = &mut out.words;
        status(match self {
            LengthCall::ComputeLen => allocation::tetra_channel_allocation_len(n, out),
            LengthCall::ComputeHeaderLen => {
                tetra_resource::tetra_mac_resource_compute_header_len(n, out)
            }
            LengthCall::UpdateLenAndFillInd => {
                tetra_resource::tetra_mac_resource_len_and_fill(n, given.count(25), out)
            }
        })
    }
}
