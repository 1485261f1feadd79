// The calls, each with the number that the list of recorded answers has for it.
ghost use Rattle.std.specs.Prelude.{◌≡◌};

use crate::addresses::AddressCall;
use crate::answers::{Stop, Words};
use crate::bit_calls::WindowCall;
use crate::block_calls::BlockCall;
use crate::codes::CodeCall;
use crate::given::Given;
use crate::header_calls::{BitsCall, Kind, LengthCall};
use crate::headers::HeaderCall;
use crate::split_calls::SplitCall;
use crate::usages::UsageCall;
use crate::write_calls::WriteCall;
use access_assign::enums::access_assign_dl_usage::AccessAssignDlUsage;
use access_assign::enums::access_assign_ul_usage::AccessAssignUlUsage;
use std::fmt;

#[derive(Clone, Copy)]
pub enum Call {
    Read(Kind),
    Write(Kind),
    Bits(BitsCall),
    Length(LengthCall),
    Window(WindowCall),
    WriteSlice(WriteCall),
    Split(SplitCall),
    Code(CodeCall),
    Address(AddressCall),
    DownlinkUsage(UsageCall),
    UplinkUsage(UsageCall),
    Header(HeaderCall),
    Block(BlockCall),
}

// No call has the number.
#[derive(Clone, Copy)]
pub struct UnknownCall;

impl TryFrom<u64> for Call {
    ghost use Rattle.replay_calls.specs.Calls.{Decodes, call_number};

    type Error = UnknownCall;

    ghost try_from_gives = { Decodes call_number };

    fn try_from(n: u64) -> Result<Call, UnknownCall> {
        match n {
            0..=15 => Ok(Call::Read(Kind::try_from(n)?)),
            16..=31 => Ok(Call::Write(Kind::try_from(n - 16)?)),
            32..=39 => Ok(Call::Bits(BitsCall::try_from(n)?)),
            40..=47 => Ok(Call::Length(LengthCall::try_from(n)?)),
            48..=67 => Ok(Call::Window(WindowCall::try_from(n)?)),
            68..=71 => Ok(Call::WriteSlice(WriteCall::try_from(n)?)),
            72..=79 => Ok(Call::Split(SplitCall::try_from(n)?)),
            80..=90 => Ok(Call::Code(CodeCall::try_from(n)?)),
            91..=95 => Ok(Call::Address(AddressCall::try_from(n)?)),
            96..=99 => Ok(Call::DownlinkUsage(UsageCall::try_from(n - 96)?)),
            100..=103 => Ok(Call::UplinkUsage(UsageCall::try_from(n - 100)?)),
            104..=111 => Ok(Call::Header(HeaderCall::try_from(n)?)),
            _ => Ok(Call::Block(BlockCall::try_from(n)?)),
        }
    }
}

impl From<Call> for u64 {
    ghost use Rattle.replay_calls.specs.Calls.{call_number};

    ghost from_gives = { λ call n. n ≡ call_number call };

    fn from(call: Call) -> u64 {
        match call {
            Call::Read(kind) => kind as u64,
            Call::Write(kind) => 16 + kind as u64,
            Call::Bits(call) => call as u64,
            Call::Length(call) => call as u64,
            Call::Window(call) => call as u64,
            Call::WriteSlice(call) => call as u64,
            Call::Split(call) => call as u64,
            Call::Code(call) => call as u64,
            Call::Address(call) => call as u64,
            Call::DownlinkUsage(call) => 96 + call as u64,
            Call::UplinkUsage(call) => 100 + call as u64,
            Call::Header(call) => call as u64,
            Call::Block(call) => call as u64,
        }
    }
}

impl fmt::Display for Call {
    fn fmt<W: fmt::Write>(&self, f: &mut fmt::Formatter<W>) -> fmt::Result {
        match self {
            Call::Read(kind) => write!(f, "read {}", kind.name()),
            Call::Write(kind) => write!(f, "write {}", kind.name()),
            Call::DownlinkUsage(call) => write!(f, "downlink {}", call.name()),
            Call::UplinkUsage(call) => write!(f, "uplink {}", call.name()),
            Call::Bits(call) => f.write_str(call.name()),
            Call::Length(call) => f.write_str(call.name()),
            Call::Window(call) => f.write_str(call.name()),
            Call::WriteSlice(call) => f.write_str(call.name()),
            Call::Split(call) => f.write_str(call.name()),
            Call::Code(call) => f.write_str(call.name()),
            Call::Address(call) => f.write_str(call.name()),
            Call::Header(call) => f.write_str(call.name()),
            Call::Block(call) => f.write_str(call.name()),
        }
    }
}

impl Call {
    // The call on what is given: puts the words of its answer.
    pub fn run(self, s: &mut [u8], given: Given<'_>, out: &mut Words) -> Result<(), Stop> {
        match self {
            Call::Read(kind) => kind.read(s, given, out),
            Call::Write(kind) => kind.write(s, given, out),
            Call::Bits(call) => call.run(s, given, out),
            Call::Length(call) => call.run(given, out),
            Call::Window(call) => call.run(s, given, out),
            Call::WriteSlice(call) => call.run(s, given, out),
            Call::Split(call) => call.run(s, given, out),
            Call::Code(call) => call.run(given, out),
            Call::Address(call) => call.run(given, out),
            Call::DownlinkUsage(call) => call.run::<AccessAssignDlUsage>(given, out),
            Call::UplinkUsage(call) => call.run::<AccessAssignUlUsage>(given, out),
            Call::Header(call) => call.run(given, out),
            Call::Block(call) => call.run(s, given, out),
        }
    }
}
