//! Which event gives what is missing.

ghost use Rattle.std.specs.Prelude.{◌≡◌};
ghost use Rattle.spec_next.specs.Prospects as spec;

use spec_data::Name;
use spec_next::Requirement;
use spec_run::Event;

// Whether an event is this party's commitment to the contract.
fn is_commitment(event: &Event, party: &Name, contract: u32) -> bool
    ensures { result ≡ spec.is_commitment party.now contract event.now }
{
    match event {
        Event::Commit {
            contract: number,
            party: name,
            ..
        } => *name == *party && *number == contract,
        _ => false,
    }
}

// Its endorsement of it.
fn is_endorsement(event: &Event, party: &Name, contract: u32) -> bool
    ensures { result ≡ spec.is_endorsement party.now contract event.now }
{
    match event {
        Event::Endorse {
            contract: number,
            party: name,
        } => *name == *party && *number == contract,
        _ => false,
    }
}

// Its signature of the initial transaction.
fn is_start(event: &Event, party: &Name, contract: u32) -> bool
    ensures { result ≡ spec.is_start party.now contract event.now }
{
    match event {
        Event::Init {
            contract: number,
            party: name,
        } => *name == *party && *number == contract,
        _ => false,
    }
}

// Its authorisation of the branch.
fn is_authorisation(event: &Event, party: &Name, output: u32, branch: u32) -> bool
    ensures { result ≡ spec.is_authorisation party.now output branch event.now }
{
    match event {
        Event::Authorise {
            party: name,
            output: number,
            branch: place,
        } => *name == *party && *number == output && *place == branch,
        _ => false,
    }
}

// Its reveal of the secret.
fn is_reveal(event: &Event, party: &Name, contract: u32, secret: &Name) -> bool
    ensures { result ≡ spec.is_reveal party.now contract secret.now event.now }
{
    match event {
        Event::Reveal {
            contract: number,
            party: name,
            secret: revealed,
        } => *name == *party && *number == contract && *revealed == *secret,
        _ => false,
    }
}

/// Whether the event gives what is missing.
pub(crate) fn gives(requirement: &Requirement, event: &Event) -> bool
    ensures { result ≡ spec.gives requirement.now event.now }
{
    match requirement {
        Requirement::Commitment { party, contract } => is_commitment(event, party, *contract),
        Requirement::Endorsement { party, contract } => is_endorsement(event, party, *contract),
        Requirement::Start { party, contract } => is_start(event, party, *contract),
        Requirement::Authorisation {
            party,
            output,
            branch,
        } => is_authorisation(event, party, *output, *branch),
        Requirement::Secret {
            party,
            contract,
            secret,
        } => is_reveal(event, party, *contract, secret),
        _ => false,
    }
}
