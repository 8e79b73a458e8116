//! What is known of each checked contract.

ghost use Rattle.spec_terms.specs.Faults.{IsWellFormed};

use bm_wellformed::Checked;

/// It has passed the check.
pub(crate) fn is_well_formed(checked: &Checked)
    ensures { IsWellFormed checked.now }
{
    let _ = checked.advert();
}
