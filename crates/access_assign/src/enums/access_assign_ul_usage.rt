// Clause 21.4.7.2, ACCESS-ASSIGN: the uplink usage marker, 6 bits.
ghost use Rattle.std.specs.Prelude.{◌≡◌};
ghost use Rattle.tetra_core.specs.Refusal.{refused_by};
ghost use Rattle.access_assign.specs.Usage.{ul_marker, ul_usage, ul_is_traffic, ul_channel, ul_refusal};

use crate::enums;
use tetra_core::refusal::Reason;

#[derive(Clone, Copy)]
pub enum AccessAssignUlUsage {
    // These three are told by the header and have no marker.
    CommonOnly,
    CommonAndAssigned,
    AssignedOnly,
    Unallocated,
    // 4 to 63
    Traffic(u8),
}

impl AccessAssignUlUsage {
    // The usage of a marker.
    #[tactic(auto, unfolding(crate::specs::Usage::ul_usage, crate::specs::Usage::ul_usage_of))]
    pub fn from_usage_marker(field: u8) -> Option<AccessAssignUlUsage>
        ensures { result ≡ ul_usage field }
    {
        if field == 0 {
            return Some(AccessAssignUlUsage::Unallocated);
        }
        if field < 4 {
            return None;
        }
        Some(AccessAssignUlUsage::Traffic(field))
    }

    // The marker of a usage.
    pub fn to_usage_marker(self) -> Option<u8>
        ensures { result ≡ ul_marker self }
    {
        match self {
            AccessAssignUlUsage::CommonOnly => None,
            AccessAssignUlUsage::CommonAndAssigned => None,
            AccessAssignUlUsage::AssignedOnly => None,
            AccessAssignUlUsage::Unallocated => Some(0),
            AccessAssignUlUsage::Traffic(chan) => Some(chan),
        }
    }

    pub fn is_traffic(self) -> bool
        ensures { result ≡ ul_is_traffic self }
    {
        match self {
            AccessAssignUlUsage::CommonOnly => false,
            AccessAssignUlUsage::CommonAndAssigned => false,
            AccessAssignUlUsage::AssignedOnly => false,
            AccessAssignUlUsage::Unallocated => false,
            AccessAssignUlUsage::Traffic(_) => true,
        }
    }

    pub fn get_tchan(self) -> Option<u8>
        ensures { result ≡ ul_channel self }
    {
        match self {
            AccessAssignUlUsage::CommonOnly => None,
            AccessAssignUlUsage::CommonAndAssigned => None,
            AccessAssignUlUsage::AssignedOnly => None,
            AccessAssignUlUsage::Unallocated => None,
            AccessAssignUlUsage::Traffic(chan) => Some(chan),
        }
    }

    // Why a usage is not written, if so.
    pub fn usage_refusal(self) -> Result<(), Reason>
        ensures { refused_by result ≡ ul_refusal self }
    {
        match self {
            AccessAssignUlUsage::CommonOnly => Err(Reason::UsageMarker),
            AccessAssignUlUsage::CommonAndAssigned => Err(Reason::UsageMarker),
            AccessAssignUlUsage::AssignedOnly => Err(Reason::UsageMarker),
            AccessAssignUlUsage::Unallocated => Ok(()),
            AccessAssignUlUsage::Traffic(chan) => enums::traffic_refusal(chan),
        }
    }
}
