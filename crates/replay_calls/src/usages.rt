// Usages of either direction, by kind and traffic channel: 96 to 103.
use crate::answers::{Stop, Tell, Words};
use crate::calls::UnknownCall;
use crate::given::Given;
use access_assign::enums::access_assign_dl_usage::AccessAssignDlUsage;
use access_assign::enums::access_assign_ul_usage::AccessAssignUlUsage;

// What is asked of a usage, by the numbers 96 to 99 in the downlink, and 100 to 103 in the uplink.
#[derive(Clone, Copy)]
pub enum UsageCall {
    FromUsageMarker,
    ToUsageMarker,
    IsTraffic,
    GetTchan,
}

impl TryFrom<u64> for UsageCall {
    ghost use Rattle.replay_calls.specs.Calls.{Decodes, usage_number};

    type Error = UnknownCall;

    ghost try_from_gives = { Decodes usage_number };

    fn try_from(n: u64) -> Result<UsageCall, UnknownCall> {
        match n {
            0 => Ok(UsageCall::FromUsageMarker),
            1 => Ok(UsageCall::ToUsageMarker),
            2 => Ok(UsageCall::IsTraffic),
            3 => Ok(UsageCall::GetTchan),
            _ => Err(UnknownCall),
        }
    }
}

// A usage of one direction. It is told by its kind, and traffic by its channel too.
pub(crate) trait Usage: Tell + Copy {
    fn of_kind(kind: u64, channel: u8) -> Self;

    fn from_usage_marker(field: u8) -> Option<Self>;

    fn to_usage_marker(self) -> Option<u8>;

    fn is_traffic(self) -> bool;

    fn get_tchan(self) -> Option<u8>;
}

impl Tell for AccessAssignDlUsage {
    fn tell(self, out: &mut Words) -> Result<(), Stop> {
        match self {
            AccessAssignDlUsage::Unallocated => [0].tell(out),
            AccessAssignDlUsage::AssignedControl => [1].tell(out),
            AccessAssignDlUsage::CommonControl => [2].tell(out),
            AccessAssignDlUsage::CommonAndAssigned => [3].tell(out),
            AccessAssignDlUsage::Traffic(n) => [4, u64::from(n)].tell(out),
        }
    }
}

impl Tell for AccessAssignUlUsage {
    fn tell(self, out: &mut Words) -> Result<(), Stop> {
        match self {
            AccessAssignUlUsage::CommonOnly => [0].tell(out),
            AccessAssignUlUsage::CommonAndAssigned => [1].tell(out),
            AccessAssignUlUsage::AssignedOnly => [2].tell(out),
            AccessAssignUlUsage::Unallocated => [3].tell(out),
            AccessAssignUlUsage::Traffic(n) => [4, u64::from(n)].tell(out),
        }
    }
}

impl Usage for AccessAssignDlUsage {
    fn of_kind(kind: u64, channel: u8) -> AccessAssignDlUsage {
        match kind {
            0 => AccessAssignDlUsage::Unallocated,
            1 => AccessAssignDlUsage::AssignedControl,
            2 => AccessAssignDlUsage::CommonControl,
            3 => AccessAssignDlUsage::CommonAndAssigned,
            _ => AccessAssignDlUsage::Traffic(channel),
        }
    }

    fn from_usage_marker(field: u8) -> Option<AccessAssignDlUsage> {
        Some(AccessAssignDlUsage::from_usage_marker(field))
    }

    fn to_usage_marker(self) -> Option<u8> {
        Some(self.to_usage_marker())
    }

    fn is_traffic(self) -> bool {
        self.is_traffic()
    }

    fn get_tchan(self) -> Option<u8> {
        self.get_tchan()
    }
}

impl Usage for AccessAssignUlUsage {
    fn of_kind(kind: u64, channel: u8) -> AccessAssignUlUsage {
        match kind {
            0 => AccessAssignUlUsage::CommonOnly,
            1 => AccessAssignUlUsage::CommonAndAssigned,
            2 => AccessAssignUlUsage::AssignedOnly,
            3 => AccessAssignUlUsage::Unallocated,
            _ => AccessAssignUlUsage::Traffic(channel),
        }
    }

    fn from_usage_marker(field: u8) -> Option<AccessAssignUlUsage> {
        AccessAssignUlUsage::from_usage_marker(field)
    }

    fn to_usage_marker(self) -> Option<u8> {
        self.to_usage_marker()
    }

    fn is_traffic(self) -> bool {
        self.is_traffic()
    }

    fn get_tchan(self) -> Option<u8> {
        self.get_tchan()
    }
}

impl UsageCall {
    pub(crate) fn name(self) -> &'static str {
        match self {
            UsageCall::FromUsageMarker => "from_usage_marker",
            UsageCall::ToUsageMarker => "to_usage_marker",
            UsageCall::IsTraffic => "is_traffic",
            UsageCall::GetTchan => "get_tchan",
        }
    }

    // The call on a usage of the direction U.
    pub(crate) fn run<U: Usage>(self, given: Given<'_>, out: &mut Words) -> Result<(), Stop> {
        let usage = U::of_kind(given.number(0), given.octet(1));
        match self {
            UsageCall::FromUsageMarker => U::from_usage_marker(given.octet(0)).tell(out),
            UsageCall::ToUsageMarker => usage.to_usage_marker().map(|n| [u64::from(n)]).tell(out),
            UsageCall::IsTraffic => [u64::from(usage.is_traffic())].tell(out),
            UsageCall::GetTchan => usage.get_tchan().map(|n| [u64::from(n)]).tell(out),
        }
    }
}
