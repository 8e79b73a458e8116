//! The branch of a transaction.

ghost use Rattle.std.specs.Prelude.{◌≡◌, true, option_map, IfSome};
ghost use Rattle.spec_terms.specs.Bound.{is_bounded};
ghost use Rattle.spec_terms.specs.Core.{core as core_of, test_of};
ghost use Rattle.spec_terms.specs.Faults.{IsWellFormed};
ghost use Rattle.spec_terms.specs.Paths.{at as branch_of};
ghost use Rattle.bm_syntax.specs.View.{guarded};
ghost use Rattle.deal_finish.specs.Filled as spec;

use bm_syntax::{Guarded, Path, at};
use bm_wellformed::Checked;
use spec_tool::Which;

// What is known of each checked contract.
fn is_well_formed(checked: &Checked)
    ensures { IsWellFormed checked.now }
{
    let _ = checked.advert();
}

fn at_path<'a>(checked: &'a Checked, path: &Path) -> Option<&'a Guarded>
    ensures { option_map (λ b. guarded b.now) result ≡ branch_of checked.now.root path.now }
{
    at(&checked.advert().root, path)
}

// The branch at a path of a checked contract: its predicate can be judged.
fn bounded_at<'a>(checked: &'a Checked, path: &Path) -> Option<&'a Guarded>
    ensures branch { option_map (λ b. guarded b.now) result ≡ branch_of checked.now.root path.now }
    ensures bounded { IfSome result (λ b. is_bounded (test_of (core_of (guarded b.now))) ≡ true) }
{
    is_well_formed(checked);
    at_path(checked, path)
}

/// The branch of a transaction; the initial one has none.
pub fn branch_of<'a>(checked: &'a Checked, which: &Which) -> Option<&'a Guarded>
    ensures branch { option_map (λ b. guarded b.now) result ≡ spec.branch_of checked.now which.now }
    ensures bounded { IfSome result (λ b. is_bounded (test_of (core_of (guarded b.now))) ≡ true) }
{
    match which {
        Which::Init => None,
        Which::At(path) => bounded_at(checked, path),
    }
}
