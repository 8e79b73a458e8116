//! Theorems on the calculus alone: every enabled step is offered, names stay apart, and steps keep money. Each is the
//! contract of a function that does nothing.
#![tactic(auto)]

ghost use Rattle.theory_calculus.specs.Offered.{EveryEnabledIsOffered, OffersStandInOrder};
ghost use Rattle.theory_calculus.specs.Money.{MoneyIsKept, MoneyStaysWithin};
ghost use Rattle.theory_calculus.specs.Numbered.{LegalRunsAreOne, NumbersStandApart};

/// A step by which a contract begins or goes on stands among the offers exactly where no premise of
/// it fails, and no other step stands there.
pub fn every_enabled_is_offered()
    ensures { EveryEnabledIsOffered }
{}

/// Beginnings are offered by contract, then the others by output and branch, each once.
pub fn offers_stand_in_order()
    ensures { OffersStandInOrder }
{}

/// A legal run, one step after another, is the same as the recursion on its steps: a configuration
/// and a step have at most one next configuration.
pub fn legal_runs_are_one()
    ensures { LegalRunsAreOne }
{}

/// Wherever a legal run leads to from an opening, deposits and active contracts stand by ascending
/// numbers below the next, and no number is of both.
pub fn numbers_stand_apart()
    ensures { NumbersStandApart }
{}

/// With checked contracts, wherever a legal run leads to from an opening: each active contract holds
/// the static balance of its position and can pay for each of its branches, each step takes in what
/// it gives out and leaves to the miner, and money never grows.
pub fn money_is_kept()
    ensures { MoneyIsKept }
{}

/// With checked contracts and no more than all money at the opening, no value, balance or sum of a
/// legal run is more than that.
pub fn money_stays_within()
    ensures { MoneyStaysWithin }
{}
