//! Whether the predicate of a branch may still be true.

ghost use Rattle.std.specs.Prelude.{◌≡◌, true};
ghost use Rattle.spec_terms.specs.Bound.{is_bounded};
ghost use Rattle.spec_terms.specs.Core.{test_of};
ghost use Rattle.spec_calculus.specs.Branches as branches;
ghost use Rattle.spec_calculus.specs.Steps as steps;
ghost use Rattle.bm_syntax.specs.View.{guarded};
ghost use Rattle.bm_calculus.specs.Reached.{IsReached};
ghost use Rattle.bm_calculus.specs.Undecided.{may_hold, may_hold_at};

use crate::branches::{branch_in, reveals};
use crate::lengths::is_true;
use crate::secrets::are_revealed;
use crate::state::{State, contract_at};
use bm_syntax::{Guarded, core};
use spec_terms::Pre;
use std::marker::Model;

impl State {
    // The same of a core of a contract with this precondition.
    fn may_core_hold(&self, contract: u32, pre: &[Pre], core: &Guarded) -> bool
        requires bounded { is_bounded (test_of (guarded core.now)) ≡ true }
        ensures { result ≡ may_hold self.now contract pre.now (guarded core.now) }
    {
        let revealed = are_revealed(&self.revealed, contract, pre, reveals(core));
        let held = is_true(&self.committed, contract, pre, core);
        !revealed || held
    }

    /// Whether the predicate of the branch isn't false: a secret that it reveals isn't revealed yet, or it is true of the committed
    /// lengths.
    pub fn may_hold(&self, output: u32, branch: u32) -> bool
        requires { IsReached self.now }
        ensures { result ≡ may_hold_at self.now (branches.active_at self.now.active output) (steps.branch_at self.now output branch) }
    {
        let Some(active) = self.active.get(output) else {
            return true;
        };
        let Some(checked) = contract_at(&self.contracts, active.contract) else {
            return true;
        };
        let Some(taken) = branch_in(checked, &active.position, branch) else {
            return true;
        };
        let pre = &checked.advert().pre;
        self.may_core_hold(active.contract, pre, core(taken))
    }
}
