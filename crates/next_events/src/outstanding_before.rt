//! What is missing before a contract begins.

ghost use Rattle.std.specs.Prelude.{◌≡◌, ◌++◌, ◌∷◌, [], map, ◌||◌, not, OnOk};
ghost use Rattle.spec_data.specs.Lists.{is_among, look_up};
ghost use Rattle.spec_terms.specs.Precondition.{deposits, persistent, names_of, secrets_of};
ghost use Rattle.spec_calculus.specs.Beginning as beginning;
ghost use Rattle.spec_next.specs.declared.requirement.Requirement.TheVariants as outstanding;
ghost use Rattle.spec_next.specs.Requirements as spec;

use crate::outstanding::put_unless;
use bm_calculus::Config;
use spec_data::{Name, OutOfMemory, Seq};
use spec_next::Requirement;
use spec_terms::Pre;
use std::marker::Model;

// Who takes part in the contract of this place, nobody without one.
fn parties_of(config: &Config, contract: u32) -> &[Name]
    ensures { result.now ≡ beginning.participants_of (beginning.contract_at config.now.contracts contract) }
{
    match config.checked(contract) {
        Some(checked) => checked.parties(),
        None => &[],
    }
}

// The commitments of these parties that are missing.
#[tactic(auto, using(std::proofs::Common::append_assoc, crate::proofs::Unmet::unmet_first))]
fn put_commitments(
    requirements: &mut Seq<Requirement>,
    config: &Config,
    contract: u32,
    parties: &[Name],
) -> Result<(), OutOfMemory>
    ensures { OnOk result (requirements.new ≡ requirements.old ++ spec.unmet
        (map (λ party. (beginning.has_committed config.now.committed contract party, outstanding.Commitment party contract)) parties.now)) }
{
    for party in parties {
        let met = config.has_committed(contract, party);
        let requirement = Requirement::Commitment {
            party: *party,
            contract,
        };
        put_unless(requirements, met, requirement)?;
    }
    Ok(())
}

/// The advertisement and the commitments that are missing.
#[tactic(auto, using(std::proofs::Common::append_assoc, crate::proofs::Unmet::unmet_first))]
pub fn put_agreed(
    requirements: &mut Seq<Requirement>,
    config: &Config,
    contract: u32,
) -> Result<(), OutOfMemory>
    ensures { OnOk result (requirements.new ≡ requirements.old ++ spec.unmet (spec.agreed config.now contract)) }
{
    put_unless(
        requirements,
        config.is_advertised(contract),
        Requirement::Advert(contract),
    )?;
    put_commitments(requirements, config, contract, parties_of(config, contract))
}

// Whether a name is bound.
fn is_bound(bindings: &[(Name, u32)], name: &Name) -> bool
    ensures { result ≡ is_among name.now (names_of bindings.now) }
{
    for binding in bindings {
        if binding.0 == *name {
            return true;
        }
    }
    false
}

fn put_if_unbound(
    requirements: &mut Seq<Requirement>,
    bindings: &[(Name, u32)],
    name: &Name,
) -> Result<(), OutOfMemory>
    ensures { OnOk result (requirements.new ≡ requirements.old ++ spec.unmet ((is_among name.now (names_of bindings.now), outstanding.Deposit name.now) ∷ [])) }
{
    put_unless(
        requirements,
        is_bound(bindings, name),
        Requirement::Deposit(*name),
    )
}

/// The deposits of a precondition that these bindings don't bind.
#[tactic(auto, using(std::proofs::Common::append_assoc, crate::proofs::Unmet::unmet_first))]
pub fn put_unbound(
    requirements: &mut Seq<Requirement>,
    pre: &[Pre],
    bindings: &[(Name, u32)],
) -> Result<(), OutOfMemory>
    ensures { OnOk result (requirements.new ≡ requirements.old ++ spec.unmet (spec.bound (names_of (deposits pre.now)) bindings.now)) }
{
    for entry in pre {
        match entry {
            Pre::Persistent { name, .. } => put_if_unbound(requirements, bindings, name)?,
            Pre::Volatile { name, .. } => put_if_unbound(requirements, bindings, name)?,
            Pre::Secret { .. } => {}
        }
    }
    Ok(())
}

// Whether a digest of this name is there.
fn is_told(digests: &[(Name, [u8; 32])], name: &Name) -> bool
    ensures { result ≡ is_among name.now (names_of digests.now) }
{
    for digest in digests {
        if digest.0 == *name {
            return true;
        }
    }
    false
}

/// The digests that are missing of a party that isn't honest.
#[tactic(auto, using(std::proofs::Common::append_assoc, crate::proofs::Unmet::unmet_first))]
pub fn put_digests(
    requirements: &mut Seq<Requirement>,
    pre: &[Pre],
    contract: u32,
    party: &Name,
    honest: bool,
    digests: &[(Name, [u8; 32])],
) -> Result<(), OutOfMemory>
    ensures { OnOk result (requirements.new ≡ requirements.old ++ spec.unmet
        (map (λ x. (honest || is_among x (names_of digests.now), outstanding.Digest party.now contract x)) (secrets_of party.now pre.now))) }
{
    for entry in pre {
        if let Pre::Secret { party: owner, name } = entry
            && *owner == *party
        {
            let told = is_told(digests, name);
            let requirement = Requirement::Digest {
                party: *party,
                contract,
                secret: *name,
            };
            put_unless(requirements, honest || told, requirement)?;
        }
    }
    Ok(())
}

// Whether the deposit that a name is bound to isn't gone.
fn isnt_gone(config: &Config, contract: u32, name: &Name) -> bool
    ensures { result ≡ spec.isnt_gone config.now contract name.now }
{
    let advertised = config.is_advertised(contract);
    let there = config.is_bound_there(contract, name);
    !advertised || there
}

// The persistent deposits that are gone.
#[tactic(auto, using(std::proofs::Common::append_assoc, crate::proofs::Unmet::unmet_first))]
fn put_gone(
    requirements: &mut Seq<Requirement>,
    config: &Config,
    contract: u32,
    pre: &[Pre],
) -> Result<(), OutOfMemory>
    ensures { OnOk result (requirements.new ≡ requirements.old ++ spec.unmet
        (map (λ d. (spec.isnt_gone config.now contract (d.0), outstanding.Gone (d.0))) (persistent pre.now))) }
{
    for entry in pre {
        if let Pre::Persistent { name, .. } = entry {
            let met = isnt_gone(config, contract, name);
            put_unless(requirements, met, Requirement::Gone(*name))?;
        }
    }
    Ok(())
}

// The persistent deposits that the contract may not take yet.
#[tactic(auto, using(std::proofs::Common::append_assoc, crate::proofs::Unmet::unmet_first))]
fn put_unsigned(
    requirements: &mut Seq<Requirement>,
    config: &Config,
    contract: u32,
    pre: &[Pre],
) -> Result<(), OutOfMemory>
    ensures { OnOk result (requirements.new ≡ requirements.old ++ spec.unmet
        (map (λ d. (beginning.is_init_authorised config.now.init_authorised contract (d.0), outstanding.Start (d.1).owner contract))
        (persistent pre.now))) }
{
    for entry in pre {
        if let Pre::Persistent { party, name, .. } = entry {
            let met = config.is_init_authorised(contract, name);
            let requirement = Requirement::Start {
                party: *party,
                contract,
            };
            put_unless(requirements, met, requirement)?;
        }
    }
    Ok(())
}

/// What is missing of the persistent deposits of a precondition for the contract to begin.
#[tactic(auto, using(std::proofs::Common::append_assoc, crate::proofs::Unmet::unmet_append))]
pub fn put_started(
    requirements: &mut Seq<Requirement>,
    config: &Config,
    contract: u32,
    pre: &[Pre],
) -> Result<(), OutOfMemory>
    ensures { OnOk result (requirements.new ≡ requirements.old ++ spec.unmet (spec.started config.now contract (persistent pre.now))) }
{
    put_gone(requirements, config, contract, pre)?;
    put_unsigned(requirements, config, contract, pre)
}
