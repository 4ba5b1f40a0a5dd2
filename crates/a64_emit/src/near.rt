//! Uses that need their label near.

ghost use Rattle.std.specs.Prelude.{◌≡◌};
ghost use Rattle.a64_emit.specs.Reach as Reach;

use a64_base::MachLabel;
use a64_buffer::Target;
use a64_cells::Site;
use a64_label_use::LabelUse;

/// The label of a use that can have no veneer and has a range that code may outgrow.
#[inline(always)]
pub fn near_label(site: Site) -> Option<MachLabel>
    ensures { result ≡ Reach.near_label site }
{
    match (site.target, site.kind) {
        (Target::Label(label), LabelUse::Ldr19 | LabelUse::Adr21) => Some(label),
        _ => None,
    }
}
