//! What a step asks of a configuration, condition by condition.

ghost use Rattle.std.specs.Prelude.{◌≡◌};
ghost use Rattle.spec_data.specs.Lists.{look_up};
ghost use Rattle.spec_terms.specs.Precondition.{secrets};
ghost use Rattle.spec_calculus.specs.Beginning as beginning;
ghost use Rattle.spec_calculus.specs.Branches as branches;
ghost use Rattle.spec_calculus.specs.Steps as steps;
ghost use Rattle.bm_calculus.specs.Undecided.{may_hold_at};

use crate::beginning::{bindings_of, has_committed, is_advertised, is_init_authorised, is_there};
use crate::branches::has_branch_authorised;
use crate::config::Config;
use crate::secrets::is_revealed_by;
use spec_data::Name;
use spec_terms::Pre;
use std::marker::Model;

impl Config {
    /// Whether the contract is advertised.
    pub fn is_advertised(&self, contract: u32) -> bool
        ensures { result ≡ beginning.is_advertised self.now.advertised contract }
    {
        is_advertised(&self.state.advertised, contract)
    }

    /// Whether the party has committed to its secrets of the contract.
    pub fn has_committed(&self, contract: u32, party: &Name) -> bool
        ensures { result ≡ beginning.has_committed self.now.committed contract party.now }
    {
        has_committed(&self.state.committed, contract, party)
    }

    /// Whether the contract is bound to a deposit of this name that is there.
    pub fn is_bound_there(&self, contract: u32, deposit: &Name) -> bool
        ensures { result ≡ beginning.is_there self.now.deposits
            (look_up deposit.now (beginning.bindings_of self.now.advertised contract)) }
    {
        let bindings = bindings_of(&self.state.advertised, contract);
        is_there(&self.state.deposits, bindings, deposit)
    }

    /// Whether the contract may take this deposit.
    pub fn is_init_authorised(&self, contract: u32, deposit: &Name) -> bool
        ensures { result ≡ beginning.is_init_authorised self.now.init_authorised contract deposit.now }
    {
        is_init_authorised(&self.state.init_authorised, contract, deposit)
    }

    /// Whether the party has authorised the branch.
    pub fn has_branch_authorised(&self, output: u32, branch: u32, party: &Name) -> bool
        ensures { result ≡ branches.has_branch_authorised self.now.branch_authorised output branch party.now }
    {
        has_branch_authorised(&self.state.branch_authorised, output, branch, party)
    }

    /// Whether the secret of this name of a precondition is revealed for the contract.
    pub fn is_revealed(&self, contract: u32, pre: &[Pre], secret: &Name) -> bool
        ensures { result ≡ branches.is_revealed_by self.now.revealed contract (look_up secret.now (secrets pre.now)) secret.now }
    {
        is_revealed_by(&self.state.revealed, contract, pre, secret)
    }

    /// Whether the predicate of the branch isn't false: a secret that it reveals isn't revealed yet, or it is true of the committed
    /// lengths. So it is where there is no such branch.
    pub fn may_hold(&self, output: u32, branch: u32) -> bool
        ensures { result ≡ may_hold_at self.now (branches.active_at self.now.active output) (steps.branch_at self.now output branch) }
    {
        self.state.may_hold(output, branch)
    }
}
