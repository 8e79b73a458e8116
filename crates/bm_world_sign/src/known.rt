//! Contracts that are compiled, and whether a party may sign for one.

ghost use Rattle.std.specs.Prelude.{◌≡◌, ℕ, List, option_map, is_some};
ghost use Rattle.spec_data.specs.Lists.{first_reason};
ghost use Rattle.spec_run.specs.Signing.{endorse_row};
ghost use Rattle.bm_world_board.specs.Prepares.{setup_of, world_of};
ghost use Rattle.bm_world_sign.specs.Instances.{AllCompiled, instance_on, Shows};

use bm_compile::Compiled;
use bm_wellformed::Checked;
use bm_world_board::Board;
use spec_data::Name;
use spec_run::Reason;

/// The contract of this number beside what it is compiled to, where it is.
pub(crate) fn compiled_contract(board: &Board, contract: u32) -> Option<(&Checked, &Compiled)>
    ensures { (hash : List ℕ → List ℕ) (messages : List (List ℕ)) → AllCompiled hash board.now messages
        → Shows hash contract (instance_on hash board.now messages contract) (option_map (λ p. (p.0.now, p.1.now)) result) }
{
    let checked = board.contract(contract)?;
    let compiled = board.compiled(contract)?;
    Some((checked, compiled))
}

// Whether the contract of this number is compiled.
fn is_compiled(board: &Board, contract: u32) -> bool
    ensures { (hash : List ℕ → List ℕ) (messages : List (List ℕ)) → AllCompiled hash board.now messages
        → result ≡ is_some (instance_on hash board.now messages contract) }
{
    board.compiled(contract).is_some()
}

/// Why the party doesn't sign for the contract, whatever is signed so far, if it doesn't.
pub(crate) fn refusal(board: &Board, contract: u32, party: &Name) -> Option<Reason>
    ensures { (hash : List ℕ → List ℕ) (messages : List (List ℕ)) → AllCompiled hash board.now messages
        → result ≡ first_reason (endorse_row (setup_of hash board.now) (world_of board.now messages) contract party.now) }
{
    if board.contract(contract).is_none() {
        return Some(Reason::NoContract);
    }
    if !board.takes_part(contract, party) {
        return Some(Reason::NotParticipant);
    }
    if !is_compiled(board, contract) {
        return Some(Reason::NotAllCommitted);
    }
    None
}
