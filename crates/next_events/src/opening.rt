//! What parties may do before a contract begins, and what secrets they may reveal.

ghost use Rattle.std.specs.Prelude.{◌≡◌, ◌++◌, ◌∷◌, [], map, filter, not, OnOk};
ghost use Rattle.spec_data.specs.Lists.{is_among};
ghost use Rattle.spec_terms.specs.Precondition.{persistent, secrets};
ghost use Rattle.spec_run.specs.declared.event.Event.TheVariants as events;
ghost use Rattle.spec_next.specs.Candidates as spec;

use bm_calculus::Config;
use spec_data::{Name, OutOfMemory, Seq};
use spec_run::Event;
use spec_terms::Pre;
use std::alloc::Global;
use std::marker::Model;

/// Adds the commitments of these people.
#[tactic(auto, using(std::proofs::Common::append_assoc))]
pub fn put_committing(
    alloc: Global,
    found: &mut Seq<Event>,
    contract: u32,
    people: &[Name],
) -> Result<(), OutOfMemory>
    ensures { OnOk result (found.new ≡ found.old ++ map (spec.committing contract) people.now) }
{
    for party in people {
        found.push(Event::Commit {
            contract,
            party: *party,
            digests: Seq::new(alloc),
        })?;
    }
    Ok(())
}

// Whether the party lets the contract take each of its persistent deposits.
fn has_started(config: &Config, contract: u32, pre: &[Pre], party: &Name) -> bool
    ensures { result ≡ spec.has_started config.now contract (persistent pre.now) party.now }
{
    for entry in pre {
        if let Pre::Persistent {
            party: owner,
            name,
            ..
        } = entry
            && *owner == *party
            && !config.is_init_authorised(contract, name)
        {
            return false;
        }
    }
    true
}

/// Adds the signatures of the initial transaction of those of these people who have a deposit left to sign.
#[tactic(auto, using(std::proofs::Common::append_assoc))]
pub fn put_starting(
    found: &mut Seq<Event>,
    config: &Config,
    contract: u32,
    pre: &[Pre],
    people: &[Name],
) -> Result<(), OutOfMemory>
    ensures { OnOk result (found.new ≡ found.old ++ spec.starting config.now contract (persistent pre.now) people.now) }
{
    for party in people {
        if !has_started(config, contract, pre, party) {
            found.push(Event::Init {
                contract,
                party: *party,
            })?;
        }
    }
    Ok(())
}

// Whether the name is one of these.
pub(crate) fn is_name_among(names: &[Name], name: &Name) -> bool
    ensures { result ≡ is_among name.now names.now }
{
    names.iter().any(|n| *n == *name)
}

/// Adds the reveals of the honest parties' secrets of a precondition.
#[tactic(auto, using(std::proofs::Common::append_assoc))]
pub fn put_revealing(
    found: &mut Seq<Event>,
    honest: &[Name],
    contract: u32,
    pre: &[Pre],
) -> Result<(), OutOfMemory>
    ensures { OnOk result (found.new ≡ found.old
        ++ map (λ x. events.Reveal contract (x.1) (x.0)) (filter (λ x. is_among (x.1) honest.now) (secrets pre.now))) }
{
    for entry in pre {
        if let Pre::Secret { party, name } = entry
            && is_name_among(honest, party)
        {
            found.push(Event::Reveal {
                contract,
                party: *party,
                secret: *name,
            })?;
        }
    }
    Ok(())
}
