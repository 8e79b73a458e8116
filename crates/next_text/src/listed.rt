//! Which events of a contract are listed.

ghost use Rattle.std.specs.Prelude.{◌≡◌, ◌||◌, filter, option_map, IfOk};
ghost use Rattle.spec_data.specs.Lists.{is_among};
ghost use Rattle.spec_next.specs.Listed as spec;
ghost use Rattle.spec_next.specs.Prospects as prospects;

use next_events::{is_lost, is_refused};
use spec_data::{Name, OutOfMemory, Seq};
use spec_next::{Outlook, Prospect};
use spec_run::Event;
use std::alloc::Global;

// ---- phases

// The phase of an event that goes before the branches.
fn phase(event: &Event) -> Option<u32>
    ensures { result ≡ spec.phase event.now }
{
    match event {
        Event::Advertise { .. } => Some(0),
        Event::Commit { .. } => Some(1),
        Event::Endorse { .. } => Some(2),
        Event::Init { .. } => Some(3),
        Event::FireInit { .. } => Some(4),
        Event::Reveal { .. } => Some(5),
        _ => None,
    }
}

/// Whether an event goes before the branches.
pub(crate) fn is_before(prospect: &Prospect) -> bool
    ensures { result ≡ spec.is_before prospect.now }
{
    phase(&prospect.event).is_some()
}

// Whether it is refused now, and may come yet.
fn is_later(prospect: &Prospect) -> bool
    ensures { result ≡ spec.is_later prospect.now }
{
    let lost = is_lost(prospect);
    is_refused(&prospect.ruling) && !lost
}

// The phase of an event that may come yet.
fn later_phase(prospect: &Prospect) -> Option<u32>
    ensures { result ≡ spec.later_phase prospect.now }
{
    if is_later(prospect) {
        phase(&prospect.event)
    } else {
        None
    }
}

// The earlier of two phases.
fn earlier(a: Option<u32>, b: Option<u32>) -> Option<u32>
    ensures { result ≡ spec.earlier a b }
{
    match (a, b) {
        (None, later) => later,
        (Some(a), None) => Some(a),
        (Some(a), Some(b)) => Some(if a <= b { a } else { b }),
    }
}

// The first phase of which one of these may come yet.
#[tactic(auto, using(crate::proofs::Phases::earlier_none, crate::proofs::Phases::earlier_assoc))]
fn next_phase(prospects: &[Prospect]) -> Option<u32>
    ensures { result ≡ spec.next_phase prospects.now }
{
    let mut next = None;
    for prospect in prospects {
        next = earlier(next, later_phase(prospect));
    }
    next
}

fn is_due(later: Option<u32>, next: Option<u32>) -> bool
    ensures { result ≡ spec.is_due later next }
{
    match (later, next) {
        (Some(a), Some(b)) => a == b,
        _ => true,
    }
}

// Those of these that are due.
fn due(
    alloc: Global,
    next: Option<u32>,
    prospects: &[Prospect],
) -> Result<Seq<Prospect>, OutOfMemory>
    ensures { IfOk result (λ list. list ≡ filter (λ p. spec.is_due (spec.later_phase p) next) prospects.now) }
{
    let mut list = Seq::new(alloc);
    for prospect in prospects {
        if is_due(later_phase(prospect), next) {
            list.push(prospect.copy(alloc)?)?;
        }
    }
    Ok(list)
}

// ---- one party

// Whether the event is this party's, or one that anybody can bring.
fn is_by(party: &[u8], event: &Event) -> bool
    ensures { result ≡ spec.is_by party.now event.now }
{
    match event {
        Event::Commit { party: who, .. } => who.bytes() == party,
        Event::Endorse { party: who, .. } => who.bytes() == party,
        Event::Init { party: who, .. } => who.bytes() == party,
        Event::Reveal { party: who, .. } => who.bytes() == party,
        Event::Authorise { party: who, .. } => who.bytes() == party,
        Event::Sign { party: who, .. } => who.bytes() == party,
        Event::Give { party: who, .. } => who.bytes() == party,
        _ => true,
    }
}

// Whether it is this party's or anybody's, or never comes.
fn is_shown(party: &[u8], prospect: &Prospect) -> bool
    ensures { result ≡ (spec.is_by party.now prospect.now.event || prospects.is_lost prospect.now) }
{
    let lost = is_lost(prospect);
    is_by(party, &prospect.event) || lost
}

// Whether an event is shown: all are, or those of one party and those of others that never come.
fn is_asked(party: Option<&[u8]>, prospect: &Prospect) -> bool
    ensures { result ≡ spec.is_asked (option_map (λ p. p.now) party.entry) prospect.now }
{
    match party {
        None => true,
        Some(party) => is_shown(party, prospect),
    }
}

// Those of these that are shown.
fn by_party(
    alloc: Global,
    party: Option<&[u8]>,
    prospects: &[Prospect],
) -> Result<Seq<Prospect>, OutOfMemory>
    ensures { IfOk result (λ list. list ≡ spec.by_party (option_map (λ p. p.now) party.entry) prospects.now) }
{
    let mut list = Seq::new(alloc);
    for prospect in prospects {
        if is_asked(party, prospect) {
            list.push(prospect.copy(alloc)?)?;
        }
    }
    Ok(list)
}

/// Whether a name is asked for: all are, or that of one party.
pub fn is_meant(party: Option<&[u8]>, name: &Name) -> bool
    ensures { result ≡ spec.is_meant (option_map (λ p. p.now) party.entry) name.now }
{
    match party {
        None => true,
        Some(party) => name.bytes() == party,
    }
}

fn takes_part(party: &[u8], names: &[Name]) -> bool
    ensures { result ≡ is_among party.now names.now }
{
    names.iter().any(|name| name.bytes() == party)
}

/// Whether a contract of these people is shown: all are, or those in which one party takes part.
pub fn is_for_party(party: Option<&[u8]>, outlook: &Outlook) -> bool
    ensures { result ≡ spec.is_for_party (option_map (λ p. p.now) party.entry) outlook.now }
{
    match party {
        None => true,
        Some(party) => takes_part(party, outlook.parties.as_slice()),
    }
}

/// Those of these names that are asked for.
pub fn of_party(
    alloc: Global,
    party: Option<&[u8]>,
    names: &[Name],
) -> Result<Seq<Name>, OutOfMemory>
    ensures { IfOk result (λ list. list ≡ spec.of_party (option_map (λ p. p.now) party.entry) names.now) }
{
    let mut list = Seq::new(alloc);
    for name in names {
        if is_meant(party, name) {
            list.push(*name)?;
        }
    }
    Ok(list)
}

/// What is listed of a contract.
pub fn listed_of(
    alloc: Global,
    party: Option<&[u8]>,
    outlook: &Outlook,
) -> Result<Seq<Prospect>, OutOfMemory>
    ensures { IfOk result (λ list. list ≡ spec.listed_of (option_map (λ p. p.now) party.entry) outlook.now) }
{
    let asked = by_party(alloc, party, outlook.prospects.as_slice())?;
    let next = next_phase(asked.as_slice());
    due(alloc, next, asked.as_slice())
}
