//! What follows of the program for deals on a chain: each theorem is the contract of a function that does nothing, or calls those that do
//! nothing.
#![tactic(auto)]

ghost use Rattle.theory_state.specs.Causes.{ChainCausesTheorem};
ghost use Rattle.theory_state.specs.StateAnswers.{StateAnswers};

use theory_chain::{
    can_exactly, can_is_accepted, can_opens, chains_are_runs, gone_never_comes, history_stays,
    known_fit, never_comes, others_are_read_over, requirements_exactly, supplied_comes,
    unverified_exactly,
};
use theory_deal::deal_statuses_have_causes;

/// Each status of an answer comes by the first cause that holds in their order.
pub fn chain_statuses_have_causes()
    ensures { ChainCausesTheorem }
{
    deal_statuses_have_causes();
}

/// Where the status of `state` is 0, its text says where the deal stands after the chain: a legal run of the calculus, what can come, which
/// ledgers accept, and what never comes.
pub fn state_answers()
    ensures { StateAnswers }
{
    chains_are_runs();
    known_fit();
    can_exactly();
    requirements_exactly();
    unverified_exactly();
    supplied_comes();
    can_opens();
    can_is_accepted();
    history_stays();
    gone_never_comes();
    never_comes();
    others_are_read_over();
}
