// The enums of an ACCESS-ASSIGN's fields, and what both usages share.
ghost use Rattle.std.specs.Prelude.{◌≡◌};
ghost use Rattle.tetra_core.specs.Refusal.{refused_by};
ghost use Rattle.access_assign.specs.Usage.{traffic_refusal};

use tetra_core::refusal::Reason;

pub mod access_assign_dl_usage;
pub mod access_assign_ul_usage;
pub mod access_code;

// Why a traffic usage marker is not written, if so.
pub fn traffic_refusal(chan: u8) -> Result<(), Reason>
    ensures { refused_by result ≡ traffic_refusal chan }
{
    if 63 < chan {
        return Err(Reason::ValueTooWide);
    }
    if chan < 4 {
        return Err(Reason::UsageMarker);
    }
    Ok(())
}
