//! Theorems on what `bitml next` says: what can come, what is missing, that nothing is listed twice, and that the first
//! lines begin the contract. Each is the contract of a function that does nothing.
#![tactic(auto)]

ghost use Rattle.theory_next.specs.Asked.{EventsAreAsked};
ghost use Rattle.theory_next.specs.ByHand.{HandsBringTheorem};
ghost use Rattle.theory_next.specs.Candidates.{CanIsMeant, OffersAreCandidates, OffersAreSaid};
ghost use Rattle.theory_next.specs.FirstEvents.{FirstEventsGoThrough};
ghost use Rattle.theory_next.specs.FirstLines.{FirstLinesAreARun};
ghost use Rattle.theory_next.specs.FirstRun.{FirstRunIsARun};
ghost use Rattle.theory_next.specs.Hands.{HandsCountTheorem};
ghost use Rattle.theory_next.specs.Lasting.{RefusalsLast};
ghost use Rattle.theory_next.specs.Leads.{LeadsAreEffects};
ghost use Rattle.theory_next.specs.Listed.{NothingIsLeftOut};
ghost use Rattle.theory_next.specs.MetAlone.{MetAloneTheorem};
ghost use Rattle.theory_next.specs.MetShown.{MetShownTheorem};
ghost use Rattle.theory_next.specs.Named.{WaitsAreNamed};
ghost use Rattle.theory_next.specs.Never.{NeverIsSaid};
ghost use Rattle.theory_next.specs.Once.{CandidatesStandOnce};
ghost use Rattle.theory_next.specs.Others.{OthersComeTheorem};
ghost use Rattle.theory_next.specs.Ready.{ReadyComesTheorem};
ghost use Rattle.theory_next.specs.Waits.{WaitsAreMeant};
ghost use Rattle.theory_next.specs.Requirements.{RequirementsAreExactTheorem};
ghost use Rattle.theory_next.specs.Together.{LinesNameAll};

/// An event is said to be one that can come exactly where it is done or accepted, and halts nothing.
pub fn can_is_meant()
    ensures { CanIsMeant }
{}

/// Exactly those events are asked that are of the kinds of next events, for each contract, party, secret, live output and branch; and an
/// event is said to be one that can come, is refused with a reason or halts the run exactly where it does.
pub fn events_are_asked()
    ensures { EventsAreAsked }
{}

/// Everything that may be taken by the calculus is among the candidates.
pub fn offers_are_candidates()
    ensures { OffersAreCandidates }
{}

/// After a run each candidate stands once in the list.
pub fn candidates_stand_once()
    ensures { CandidatesStandOnce }
{}

/// After a run it is said of all that may be taken by the calculus that it can come, unless it halts the run.
pub fn offers_are_said()
    ensures { OffersAreSaid }
{}

/// What is missing for an event is exactly what fails of its conditions, and nothing is missing exactly where all are met.
pub fn requirements_are_exact()
    ensures { RequirementsAreExactTheorem }
{}

/// After a run a contract begins, and a branch of an active contract is taken, wherever nothing is missing for it, unless
/// it halts the run: so of a beginning or a branch that can't come something is always missing.
pub fn ready_comes()
    ensures { ReadyComesTheorem }
{}

/// After a run that doesn't halt, an advertisement, a commitment, an endorsement, a signature of an initial transaction or a
/// reveal for which nothing is said to be missing, each authorisation that is asked, and the reveal of each secret of an
/// honest party that a branch lacks, can come, unless it halts the run.
pub fn others_come()
    ensures { OthersComeTheorem }
{}

/// After a run that doesn't halt, where an authorisation or a height alone is missing for a branch, the event that meets it
/// can come, and after it the branch can be taken, unless that halts the run.
pub fn met_alone()
    ensures { MetAloneTheorem }
{}

/// After a run that doesn't halt, where a secret alone is said to be missing for a branch, the event that shows it can come, and after it
/// the branch can be taken, unless that halts the run, if its predicate is true; else it lacks that alone.
pub fn met_shown()
    ensures { MetShownTheorem }
{}

/// An event that lacks what never comes says that alone; where it goes before the beginning, its contract shows no other such event.
/// Of a contract that is over nothing is shown.
pub fn never_is_said()
    ensures { NeverIsSaid }
{}

/// What is refused since nobody is honest, or since an honest party's secret isn't there or hasn't the size of one, never comes.
pub fn refusals_last()
    ensures { RefusalsLast }
{}

/// What a signature by hand gives isn't said to be missing, and nothing else is left out for it.
pub fn hands_count()
    ensures { HandsCountTheorem }
{}

/// After a run a contract begins, and a branch is taken, unless that halts it, exactly where nothing is said to be missing, whatever was
/// signed by hand.
pub fn hands_bring()
    ensures { HandsBringTheorem }
{}

/// Of what a contract has ahead all is listed, but what may come later than another event of it that is listed.
pub fn nothing_is_left_out()
    ensures { NothingIsLeftOut }
{}

/// A line of what several parties lack names exactly those, and of one alone it is the line of that.
pub fn lines_name_all()
    ensures { LinesNameAll }
{}

/// What a branch is said to pay or to lead to is what its step makes in the calculus.
pub fn leads_are_effects()
    ensures { LeadsAreEffects }
{}

/// After a run a contract waits exactly for those of its participants who can give now something that is missing for an event of
/// it that is listed.
pub fn waits_are_meant()
    ensures { WaitsAreMeant }
{}

/// So a contract waits for a party exactly where a printed line of what is missing names it for something that it can do now, or a line says
/// that it can do what an event lacks that isn't printed.
pub fn waits_are_named()
    ensures { WaitsAreNamed }
{}

/// The first lines of a run that are printed of a contract, with the bytes of its secrets filled in, are the text of the
/// run that begins the contract.
pub fn first_lines_are_a_run()
    ensures { FirstLinesAreARun }
{}

/// With any secrets that differ it is a run of which the theorems on runs speak, unless its opening collides, where a
/// run file has room for the parties, secrets and deposits of the contract.
pub fn first_run_is_a_run()
    ensures { FirstRunIsARun }
{}

/// And each of its events is done or accepted, if the secrets have the size of secrets, unless the run halts: where a
/// commitment or the beginning collides, or where the beginning shows a secret that is what a deposit is spent with.
pub fn first_events_go_through()
    ensures { FirstEventsGoThrough }
{}
