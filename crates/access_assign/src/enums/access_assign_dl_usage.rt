// Clause 21.4.7.2, ACCESS-ASSIGN: the downlink usage marker, 6 bits.
ghost use Rattle.std.specs.Prelude.{◌≡◌};
ghost use Rattle.tetra_core.specs.Refusal.{refused_by};
ghost use Rattle.access_assign.specs.Usage.{dl_marker, dl_usage_of, dl_is_traffic, dl_channel, dl_refusal};

use crate::enums;
use tetra_core::refusal::Reason;

#[derive(Clone, Copy)]
pub enum AccessAssignDlUsage {
    Unallocated,
    AssignedControl,
    CommonControl,
    CommonAndAssigned,
    // 4 to 63
    Traffic(u8),
}

impl AccessAssignDlUsage {
    // The usage of a marker.
    #[tactic(auto, unfolding(crate::specs::Usage::dl_usage_of))]
    pub fn from_usage_marker(field: u8) -> AccessAssignDlUsage
        ensures { result ≡ dl_usage_of field }
    {
        match field {
            0 => AccessAssignDlUsage::Unallocated,
            1 => AccessAssignDlUsage::AssignedControl,
            2 => AccessAssignDlUsage::CommonControl,
            3 => AccessAssignDlUsage::CommonAndAssigned,
            _ => AccessAssignDlUsage::Traffic(field),
        }
    }

    // The marker of a usage.
    pub fn to_usage_marker(self) -> u8
        ensures { result ≡ dl_marker self }
    {
        match self {
            AccessAssignDlUsage::Unallocated => 0,
            AccessAssignDlUsage::AssignedControl => 1,
            AccessAssignDlUsage::CommonControl => 2,
            AccessAssignDlUsage::CommonAndAssigned => 3,
            AccessAssignDlUsage::Traffic(chan) => chan,
        }
    }

    pub fn is_traffic(self) -> bool
        ensures { result ≡ dl_is_traffic self }
    {
        match self {
            AccessAssignDlUsage::Unallocated => false,
            AccessAssignDlUsage::AssignedControl => false,
            AccessAssignDlUsage::CommonControl => false,
            AccessAssignDlUsage::CommonAndAssigned => false,
            AccessAssignDlUsage::Traffic(_) => true,
        }
    }

    pub fn get_tchan(self) -> Option<u8>
        ensures { result ≡ dl_channel self }
    {
        match self {
            AccessAssignDlUsage::Unallocated => None,
            AccessAssignDlUsage::AssignedControl => None,
            AccessAssignDlUsage::CommonControl => None,
            AccessAssignDlUsage::CommonAndAssigned => None,
            AccessAssignDlUsage::Traffic(chan) => Some(chan),
        }
    }

    // Why a usage is not written, if so.
    pub fn usage_refusal(self) -> Result<(), Reason>
        ensures { refused_by result ≡ dl_refusal self }
    {
        match self {
            AccessAssignDlUsage::Unallocated => Ok(()),
            AccessAssignDlUsage::AssignedControl => Ok(()),
            AccessAssignDlUsage::CommonControl => Ok(()),
            AccessAssignDlUsage::CommonAndAssigned => Ok(()),
            AccessAssignDlUsage::Traffic(chan) => enums::traffic_refusal(chan),
        }
    }
}
