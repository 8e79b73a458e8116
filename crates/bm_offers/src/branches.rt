//! The branches of an active contract.

ghost use Rattle.std.specs.Prelude.{◌≡◌, ◌<◌, ◌^◌, Some, length, map, option_map};
ghost use Rattle.spec_calculus.specs.Offers as spec;
ghost use Rattle.spec_terms.specs.Faults.{IsWellFormed};
ghost use Rattle.spec_terms.specs.Paths.{contract_under};
ghost use Rattle.bm_syntax.specs.View.{guarded, contract};

use bm_calculus::Config;
use bm_syntax::{Contract, Guarded, choice_at};
use bm_wellformed::Checked;
use spec_calculus::ActiveContract;
use spec_terms::Path;

// The choice at a position of a contract, which has passed the check.
fn choice_in<'a>(checked: &'a Checked, position: &Path) -> Option<&'a Contract>
    ensures choice { option_map (λ c. contract c.now) result ≡ contract_under checked.now.root position.now }
    ensures well_formed { IsWellFormed checked.now }
{
    choice_at(&checked.advert().root, position)
}

// The branches at a position of a contract, none without one.
#[tactic(auto, using(crate::proofs::FewBranches::seen_branches, crate::proofs::FewBranches::few_branches))]
fn branches_at<'a>(checked: &'a Checked, position: &Path) -> &'a [Guarded]
    ensures same { map guarded result.now ≡ spec.branches_in (Some checked.now) position.now }
    ensures few { length result.now < 2 ^ 32 }
{
    match choice_in(checked, position) {
        Some(choice) => &choice.branches,
        None => &[],
    }
}

/// The branches of an active contract.
pub fn branches_of<'a>(config: &'a Config, active: &ActiveContract) -> &'a [Guarded]
    ensures same { map guarded result.now ≡ spec.branches_of config.now.contracts active.now }
    ensures few { length result.now < 2 ^ 32 }
{
    match config.checked(active.contract) {
        Some(checked) => branches_at(checked, &active.position),
        None => &[],
    }
}
