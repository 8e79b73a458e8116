//! The steps of a contract that is told to others, before it begins.

ghost use Rattle.std.specs.Prelude.{◌≡◌, ◌++◌, ◌∷◌, [], IfOk, OnOk};
ghost use Rattle.spec_data.specs.Lists.{look_up};
ghost use Rattle.spec_calculus.specs.Beginning as beginning;
ghost use Rattle.spec_calculus.specs.Moves as moves;
ghost use Rattle.spec_run.specs.Setup.{Setup, pre_at};
ghost use Rattle.spec_run.specs.World.{World};
ghost use Rattle.spec_run.specs.Steps as spec;
ghost use Rattle.theory_run.specs.Tracks.{AgreeOnMoney};
ghost use Rattle.bm_translate.specs.Asking.{init_allowed};

use bm_calculus::Config;
use spec_calculus::Step;
use spec_data::{Name, OutOfMemory};
use spec_terms::Pre;
use std::alloc::Global;

// What the contract is bound to, nothing where it isn't advertised.
fn bindings_of(config: &Config, contract: u32) -> &[(Name, u32)]
    ensures { result.now ≡ beginning.bindings_of config.now.advertised contract }
{
    match config.bindings(contract) {
        Some(bindings) => bindings,
        None => &[],
    }
}

// Whether there is a live deposit of this number.
fn is_live(config: &Config, number: u32) -> bool
    ensures { result ≡ moves.is_live config.now.deposits number }
{
    config.deposit(number).is_some()
}

// Whether the name is bound to a live deposit.
fn is_there(config: &Config, bindings: &[(Name, u32)], name: &Name) -> bool
    ensures { result ≡ beginning.is_there config.now.deposits (look_up name.now bindings.now) }
{
    for (bound, number) in bindings {
        if *bound == *name {
            return is_live(config, *number);
        }
    }
    false
}

// The authorisation of an entry, if it is a persistent deposit of the party that is bound to a live one.
fn put_allowed(
    steps: &mut Vec<Step>,
    config: &Config,
    bindings: &[(Name, u32)],
    contract: u32,
    party: &Name,
    entry: &Pre,
) -> Result<(), OutOfMemory>
    ensures { OnOk result (steps.new.items ≡ steps.old.items
        ++ init_allowed config.now.deposits bindings.now contract party.now (entry.now ∷ [])) }
{
    match entry {
        Pre::Persistent {
            party: owner,
            name,
            ..
        } => {
            if *owner == *party {
                if is_there(config, bindings, name) {
                    steps.push(Step::AuthInit {
                        contract,
                        party: *owner,
                        deposit: *name,
                    })?;
                }
            }
            Ok(())
        }
        _ => Ok(()),
    }
}

// The authorisations of the party's persistent deposits that are bound to live ones.
fn allowed_steps(
    alloc: Global,
    config: &Config,
    bindings: &[(Name, u32)],
    contract: u32,
    pre: &[Pre],
    party: &Name,
) -> Result<Vec<Step>, OutOfMemory>
    ensures { IfOk result (λ made. made.items ≡ init_allowed config.now.deposits bindings.now contract party.now pre.now) }
{
    let mut made = Vec::new(alloc);
    for entry in pre {
        put_allowed(&mut made, config, bindings, contract, party, entry)?;
    }
    Ok(made)
}

/// The party lets the contract take each of its persistent deposits that is bound to a live one, in the precondition's order.
pub fn init_steps(
    alloc: Global,
    config: &Config,
    contract: u32,
    pre: &[Pre],
    party: &Name,
) -> Result<Vec<Step>, OutOfMemory>
    ensures listed { IfOk result (λ made. made.items
        ≡ init_allowed config.now.deposits (beginning.bindings_of config.now.advertised contract) contract party.now pre.now) }
    ensures run { (s : Setup) (w : World) → pre_at s contract ≡ pre.now → AgreeOnMoney s config.now w
        → config.now.advertised ≡ w.advertised → IfOk result (λ made. made.items ≡ spec.init_steps s w contract party.now) }
{
    let made = allowed_steps(
        alloc,
        config,
        bindings_of(config, contract),
        contract,
        pre,
        party,
    )?;
    Ok(made)
}
