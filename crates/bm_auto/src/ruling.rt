//! The event of a rule.

ghost use Rattle.std.specs.Prelude.{◌≡◌, ℕ, List};
ghost use Rattle.spec_tool.specs.Turns as spec;
ghost use Rattle.bm_world_board.specs.Prepares.{setup_of, world_of};
ghost use Rattle.bm_auto.specs.Ruled.{authorises, fires};

use crate::standing::taken_at;
use bm_world_board::Board;
use spec_data::{Name, Seq};
use spec_run::Event;
use spec_tool::{Act, Rule};
use std::alloc::Global;

// The authorisation of the branch that is taken, where one is.
fn authorised(party: Name, taken: Option<(u32, u32)>) -> Option<Event>
    ensures { result ≡ authorises party taken }
{
    match taken {
        Some((output, branch)) => Some(Event::Authorise {
            party,
            output,
            branch,
        }),
        None => None,
    }
}

// The transaction of the branch that is taken, where one is.
fn fired(taken: Option<(u32, u32)>) -> Option<Event>
    ensures { result ≡ fires taken }
{
    match taken {
        Some((output, branch)) => Some(Event::Fire { output, branch }),
        None => None,
    }
}

/// The event of a rule on this board, where it has one.
pub(crate) fn rule_event(alloc: Global, board: &Board, rule: &Rule) -> Option<Event>
    ensures { (hash : List ℕ → List ℕ) (messages : List (List ℕ))
        → result ≡ spec.rule_event (setup_of hash board.now) (world_of board.now messages) rule.now }
{
    let party = rule.party;
    match &rule.act {
        Act::Commit => Some(Event::Commit {
            contract: 0,
            party,
            digests: Seq::new(alloc),
        }),
        Act::Endorse => Some(Event::Endorse { contract: 0, party }),
        Act::Init => Some(Event::Init { contract: 0, party }),
        Act::Authorise(path) => authorised(party, taken_at(board, path)),
        Act::Reveal(secret) => Some(Event::Reveal {
            contract: 0,
            party,
            secret: *secret,
        }),
        Act::FireInit => Some(Event::FireInit { contract: 0 }),
        Act::Fire(path) => fired(taken_at(board, path)),
    }
}
