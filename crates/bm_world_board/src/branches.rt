//! Branches of what live contract outputs stand for.

ghost use Rattle.std.specs.Prelude.{◌≡◌, ℕ, List, option_map};
ghost use Rattle.spec_run.specs.Ledger.{position_branch};
ghost use Rattle.bm_syntax.specs.View.{guarded};
ghost use Rattle.bm_world_board.specs.Prepares.{setup_of};

use crate::board::Board;
use bm_syntax::{Guarded, branch_at};
use bm_world_coins::HeldPosition;

impl Board {
    /// The branch of this number of what is held.
    pub fn branch_held(&self, held: &HeldPosition, branch: u32) -> Option<&Guarded>
        ensures { (hash : List ℕ → List ℕ)
            → option_map (λ b. guarded b.now) result ≡ position_branch (setup_of hash self.now) held.now branch }
    {
        match self.contract(held.contract()) {
            Some(checked) => branch_at(&checked.advert().root, held.position(), branch),
            None => None,
        }
    }
}
