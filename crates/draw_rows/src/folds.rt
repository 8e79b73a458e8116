//! Which events of a run share a row.

ghost use Rattle.std.specs.Prelude.{◌≡◌, ◌+◌, map, IfOk};
ghost use Rattle.std.specs.List.{list_all};
ghost use Rattle.spec_run.specs.Values as values;
ghost use Rattle.spec_page.specs.Folds as spec;
ghost use Rattle.draw_rows.specs.Turns.{turn_of, after_entry};

use crate::figures::plus;
use crate::lines::are_equal;
use crate::moments::{Moment, pass};
use spec_data::OutOfMemory;
use spec_run::{Event, Outcome};
use spec_text::Entry;
use std::alloc::Global;
use std::marker::Model;

/// Events in a row: the number of the first and of the last, the first, those behind it, and what they left.
pub struct Fold {
    pub first: u32,
    pub last: u32,
    pub entry: Entry,
    pub others: Vec<Entry>,
    pub moment: Moment,
}

impl Model for Fold {
    ghost use Rattle.std.specs.Prelude.{map};
    ghost use Rattle.std.specs.Coded.{codes};
    ghost use Rattle.spec_terms.specs.TermCode.{coded_choice};
    ghost use Rattle.spec_page.specs.Folds.{Fold as Plain};
    ghost use Rattle.draw_rows.specs.Turns.{turn_of};

    ghost Value = { Plain };

    ghost coded = { Prim.hlevel (codes, coded_choice) };

    ghost view = { λ f. record {
      first = f.first;
      last = f.last;
      turn = turn_of f.entry;
      others = map turn_of f.others.items;
      moment = f.moment;
    } };
}

impl Drop for Fold {
    fn drop(self) {
        let Fold {
            first: _,
            last: _,
            entry: _,
            others: _,
            moment: _,
        } = self;
    }
}

impl Fold {
    /// What it left.
    pub(crate) fn into_moment(self) -> Moment
        ensures { result ≡ self.moment }
    {
        let Fold {
            first: _,
            last: _,
            entry: _,
            others: _,
            moment,
        } = self;
        moment
    }
}

// ---- which may

// The contract that an event is a part of the beginning of.
fn ceremony_of(event: &Event) -> Option<u32>
    ensures { result ≡ spec.ceremony_of event.now }
{
    match event {
        Event::Advertise { contract, .. } => Some(*contract),
        Event::Commit { contract, .. } => Some(*contract),
        Event::Endorse { contract, .. } => Some(*contract),
        Event::Init { contract, .. } => Some(*contract),
        Event::FireInit { contract } => Some(*contract),
        _ => None,
    }
}

fn is_one_contract(one: Option<u32>, other: Option<u32>) -> bool
    ensures { result ≡ spec.is_one_contract one other }
{
    match (one, other) {
        (Some(one), Some(other)) => one == other,
        (Some(_), None) => false,
        (None, _) => false,
    }
}

fn is_refused(outcome: &Outcome) -> bool
    ensures { result ≡ values.is_refused outcome.now }
{
    match outcome {
        Outcome::Refused(_) => true,
        Outcome::Done => false,
        Outcome::Accepted { .. } => false,
    }
}

// Whether both are of one contract's beginning, and neither is refused.
fn are_of_one_beginning(one: &Entry, other: &Entry) -> bool
    ensures { result ≡ spec.are_of_one_beginning (turn_of one.now) (turn_of other.now) }
{
    let same = is_one_contract(ceremony_of(&one.event), ceremony_of(&other.event));
    same && !is_refused(&one.outcome) && !is_refused(&other.outcome)
}

/// Whether two events may share a row.
pub(crate) fn may_share(alloc: Global, one: &Entry, other: &Entry) -> Result<bool, OutOfMemory>
    ensures { IfOk result (λ b. b ≡ spec.may_share (turn_of one.now) (turn_of other.now)) }
{
    if are_of_one_beginning(one, other) {
        return Ok(true);
    }
    are_equal(alloc, one, other)
}

// ---- folds

/// What a moment is once an event has come.
pub(crate) fn after(alloc: Global, moment: Moment, entry: &Entry) -> Result<Moment, OutOfMemory>
    ensures { IfOk result (λ m. m ≡ after_entry moment entry.now) }
{
    let mut moment = moment;
    pass(alloc, &mut moment, entry.steps.as_slice())?;
    Ok(moment)
}

/// The fold of this one event, before which this was there.
pub(crate) fn fold_of(
    alloc: Global,
    moment: Moment,
    number: u32,
    entry: &Entry,
) -> Result<Fold, OutOfMemory>
    ensures { IfOk result (λ f. f ≡ spec.fold_of number (turn_of entry.now) (after_entry moment entry.now)) }
{
    let moment = after(alloc, moment, entry)?;
    let entry = entry.copy(alloc)?;
    Ok(Fold {
        first: number,
        last: number,
        entry,
        others: Vec::new(alloc),
        moment,
    })
}

/// A fold with the next event.
#[tactic(auto, using(crate::proofs::Lists::mapped_more))]
pub(crate) fn longer(alloc: Global, fold: Fold, entry: &Entry) -> Result<Fold, OutOfMemory>
    ensures { IfOk result (λ f. f ≡ spec.longer fold (turn_of entry.now) (after_entry fold.moment entry.now)) }
{
    let mut fold = fold;
    let copy = entry.copy(alloc)?;
    fold.others.push(copy)?;
    fold.last = plus(fold.last, 1)?;
    pass(alloc, &mut fold.moment, entry.steps.as_slice())?;
    Ok(fold)
}

/// The fold behind one, of this one event.
pub(crate) fn next_fold(alloc: Global, fold: Fold, entry: &Entry) -> Result<Fold, OutOfMemory>
    ensures { IfOk result (λ f. f ≡ spec.fold_of (fold.last + 1) (turn_of entry.now) (after_entry fold.moment entry.now)) }
{
    let number = plus(fold.last, 1)?;
    fold_of(alloc, fold.into_moment(), number, entry)
}

// Whether all of these are equal to the first.
fn are_plain(alloc: Global, entry: &Entry, others: &[Entry]) -> Result<bool, OutOfMemory>
    ensures { IfOk result (λ b. b ≡ list_all (λ t. spec.are_equal (turn_of entry.now) t) (map turn_of others.now)) }
{
    for other in others {
        let same = are_equal(alloc, entry, other)?;
        if !same {
            return Ok(false);
        }
    }
    Ok(true)
}

/// Whether all events of a fold are equal.
pub(crate) fn is_plain(alloc: Global, fold: &Fold) -> Result<bool, OutOfMemory>
    ensures { IfOk result (λ b. b ≡ spec.is_plain fold.now) }
{
    are_plain(alloc, &fold.entry, &fold.others)
}
