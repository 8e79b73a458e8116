//! Theorems on offers: all that the calculus allows is offered, and the ledger accepts it. Each is the contract of a
//! function that does nothing.
#![tactic(auto)]

ghost use Rattle.spec_run.specs.Statements.{OffersTheorem, OffersThroughoutTheorem};
ghost use Rattle.spec_run.specs.HaveEvents.{OffersHaveEvents, OffersAreCompleteTheorem};
ghost use Rattle.theory_offers.specs.Authorised.{AuthorisationsHaveSignatures};
ghost use Rattle.theory_offers.specs.Begun.{EndorsedBeforeStart};
ghost use Rattle.theory_offers.specs.BoundDeposits.{BoundDepositsTheorem};

/// Every enabled and authorised contract step after a run has a compiled transaction that the
/// ledger accepts, and its event leads to the step.
pub fn offers_theorem()
    ensures { OffersTheorem }
{}

/// So has every enabled and authorised contract step at the opening and after every event of a run, and
/// what is offered there is what the run offers that ends there.
pub fn offers_throughout_theorem()
    ensures { OffersThroughoutTheorem }
{}

/// The offers with their events are the offers of the calculus: every enabled contract step, each
/// once, in their order.
pub fn offers_have_events()
    ensures { OffersHaveEvents }
{}

/// So at the opening of a run, after every event and at its end everything that may be taken is
/// offered, each once and in order.
pub fn offers_are_complete()
    ensures { OffersAreCompleteTheorem }
{}

/// A contract begins in a run only where all its endorsements are in the book, and they stay there.
pub fn endorsed_before_start()
    ensures { EndorsedBeforeStart }
{}

/// At the opening of a run, after every event and at its end each authorisation has its signature in
/// the book, and an honest party's signature of a branch that asks it stands for its authorisation.
pub fn authorisations_have_signatures()
    ensures { AuthorisationsHaveSignatures }
{}

/// While a contract isn't compiled, which it is once it is advertised and all its participants have
/// committed, it takes no honest party's deposit.
pub fn bound_deposits_stay()
    ensures { BoundDepositsTheorem }
{}
