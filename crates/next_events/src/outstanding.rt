//! One condition.

ghost use Rattle.std.specs.Prelude.{◌≡◌, ◌++◌, ◌∷◌, [], OnOk};
ghost use Rattle.spec_next.specs.Requirements.{unmet};

use spec_data::{OutOfMemory, Seq};
use spec_next::Requirement;

/// Adds what is missing where the condition isn't met.
#[tactic(auto, using(crate::proofs::Unmet::nothing_more))]
pub fn put_unless(
    requirements: &mut Seq<Requirement>,
    met: bool,
    requirement: Requirement,
) -> Result<(), OutOfMemory>
    ensures { OnOk result (requirements.new ≡ requirements.old ++ unmet ((met, requirement) ∷ [])) }
{
    if met {
        return Ok(());
    }
    requirements.push(requirement)?;
    Ok(())
}
