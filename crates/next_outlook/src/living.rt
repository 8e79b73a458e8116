//! Which of a contract's events are shown.

ghost use Rattle.std.specs.Prelude.{◌≡◌, ◌&&◌, ◌||◌, not, filter, IfOk};
ghost use Rattle.std.specs.List.{list_any};
ghost use Rattle.spec_next.specs.Prospects as spec;

use next_events::{is_lost, is_refused};
use spec_data::{OutOfMemory, Seq};
use spec_next::{Prospect, Ruling};
use spec_run::Event;
use std::alloc::Global;

// Whether a contract goes on by the event.
fn goes_on(event: &Event, ruling: &Ruling) -> bool
    ensures { result ≡ spec.goes_on event.now ruling.now }
{
    match event {
        Event::Authorise { .. } => true,
        Event::Fire { .. } => true,
        Event::FireInit { .. } => !is_refused(ruling),
        _ => false,
    }
}

// Whether the contract never begins, since this goes before and never comes.
fn is_end(prospect: &Prospect) -> bool
    ensures { result ≡ (spec.is_lost prospect.now && not (spec.goes_on prospect.now.event prospect.now.ruling)) }
{
    let on = goes_on(&prospect.event, &prospect.ruling);
    is_lost(prospect) && !on
}

// Whether it is shown of a contract that never begins.
fn is_kept(prospect: &Prospect) -> bool
    ensures { result ≡ (spec.is_lost prospect.now || spec.goes_on prospect.now.event prospect.now.ruling) }
{
    is_lost(prospect) || goes_on(&prospect.event, &prospect.ruling)
}

fn has_end(prospects: &[Prospect]) -> bool
    ensures { result ≡ list_any (λ p. spec.is_lost p && not (spec.goes_on p.event p.ruling)) prospects.now }
{
    prospects.iter().any(|prospect| is_end(prospect))
}

fn kept(alloc: Global, prospects: &[Prospect]) -> Result<Seq<Prospect>, OutOfMemory>
    ensures { IfOk result (λ list. list ≡ filter (λ p. spec.is_lost p || spec.goes_on p.event p.ruling) prospects.now) }
{
    let mut list = Seq::new(alloc);
    for prospect in prospects {
        if is_kept(prospect) {
            list.push(prospect.copy(alloc)?)?;
        }
    }
    Ok(list)
}

fn going(alloc: Global, prospects: &[Prospect]) -> Result<Seq<Prospect>, OutOfMemory>
    ensures { IfOk result (λ list. list ≡ filter (λ p. spec.goes_on p.event p.ruling) prospects.now) }
{
    let mut list = Seq::new(alloc);
    for prospect in prospects {
        if goes_on(&prospect.event, &prospect.ruling) {
            list.push(prospect.copy(alloc)?)?;
        }
    }
    Ok(list)
}

/// These, or of a contract that is over those by which it would go on.
pub(crate) fn useful(
    alloc: Global,
    over: bool,
    prospects: Seq<Prospect>,
) -> Result<Seq<Prospect>, OutOfMemory>
    ensures { IfOk result (λ list. list ≡ spec.useful over prospects) }
{
    if over {
        return going(alloc, prospects.as_slice());
    }
    Ok(prospects)
}

/// These, or of a contract that never begins those that never come and those by which one goes on.
pub(crate) fn living(alloc: Global, prospects: Seq<Prospect>) -> Result<Seq<Prospect>, OutOfMemory>
    ensures { IfOk result (λ list. list ≡ spec.living prospects) }
{
    if has_end(prospects.as_slice()) {
        return kept(alloc, prospects.as_slice());
    }
    Ok(prospects)
}
