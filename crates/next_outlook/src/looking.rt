//! What each event that contracts have ahead would come to, asked one after another.

ghost use Rattle.std.specs.Prelude.{◌≡◌, ◌<◌, ◌+◌, ◌++◌, ◌∷◌, [], length, IfOk, IfErr, OnOk};
ghost use Rattle.std.specs.List.{AllByRecursion};
ghost use Rattle.spec_terms.specs.Parties.{participants};
ghost use Rattle.spec_run.specs.Conditions.{IsEvent};
ghost use Rattle.spec_run.specs.Event as run;
ghost use Rattle.spec_next.specs.Candidates as spec;
ghost use Rattle.spec_next.specs.Foreseen.{foreseen_strings};
ghost use Rattle.spec_next.specs.Prospects.{outlook_by};
ghost use Rattle.bm_world.specs.Playing.{most_records, setup_in};
ghost use Rattle.bm_world_heard.specs.Heard.{Stopped};
ghost use Rattle.next_outlook.specs.Seen.{SeesOne, Sees, SeesContract, AddsContract, SeesContracts, Looked};

use crate::candidates::candidates;
use crate::living::{living, useful};
use crate::over::is_over;
use crate::prospects::tell;
use crate::waits::waits;
use bm_calculus::Config;
use bm_hash::Hash32;
use bm_wellformed::Checked;
use bm_world::{Halt, World};
use spec_data::{OutOfMemory, Seq};
use spec_next::{Outlook, Prospect};
use spec_run::Event;
use std::alloc::{AllocError, Global};
use std::marker::Model;

/// The records before an event are fewer than this.
const MOST_RECORDS: usize = 16_000;

// Asks what an event would come to, and adds what is told of it.
fn look<H: Hash32 + Drop>(
    alloc: Global,
    world: &mut World<H>,
    config: &Config,
    prospects: &mut Seq<Prospect>,
    event: &Event,
) -> Result<(), Halt>
    requires is { IsEvent (setup_in H.digest_of world.old) event.now }
    requires few { length world.old.trace < most_records }
    ensures sees { OnOk result (SeesOne H.digest_of world.old world.new config.now event.now prospects.old prospects.new) }
    ensures stopped { IfErr result (Stopped H.digest_of world.old world.new
        (run.pending (setup_in H.digest_of world.old) world.old.world event.now).hashes) }
{
    let outcome = world.foresee(event)?;
    match tell(alloc, world, config, prospects, event, &outcome) {
        Ok(()) => Ok(()),
        Err(_) => Err(Halt::Memory),
    }
}

// The same of these events in turn.
fn look_all<H: Hash32 + Drop>(
    alloc: Global,
    world: &mut World<H>,
    config: &Config,
    events: &[Event],
) -> Result<Seq<Prospect>, Halt>
    requires are { AllByRecursion (IsEvent (setup_in H.digest_of world.old)) events.now }
    requires few { length world.old.trace < most_records }
    ensures sees { IfOk result (Sees H.digest_of world.old world.new config.now events.now) }
    ensures stopped { IfErr result (Stopped H.digest_of world.old world.new
        (foreseen_strings (setup_in H.digest_of world.old) world.old.world events.now)) }
{
    let mut prospects = Seq::new(alloc);
    for event in events {
        look(alloc, world, config, &mut prospects, event)?;
    }
    Ok(prospects)
}

// What is told of the events that a contract has ahead, and who can give now what is missing.
fn outlook_of(
    alloc: Global,
    config: &Config,
    contract: u32,
    checked: &Checked,
    over: bool,
    ahead: Seq<Prospect>,
) -> Result<Outlook, OutOfMemory>
    ensures { IfOk result (λ outlook. outlook ≡ outlook_by config.now over contract (participants checked.now) ahead) }
{
    let useful = useful(alloc, over, ahead)?;
    let prospects = living(alloc, useful)?;
    let waits = waits(alloc, config, checked.parties(), prospects.as_slice())?;
    let parties = Seq::of(Vec::from_slice(alloc, checked.parties())?);
    Ok(Outlook {
        contract,
        parties,
        prospects,
        waits,
    })
}

// The same of the candidates of a contract.
fn look_contract<H: Hash32 + Drop>(
    alloc: Global,
    world: &mut World<H>,
    config: &Config,
    contract: u32,
    checked: &Checked,
) -> Result<Outlook, Halt>
    requires few { length world.old.trace < most_records }
    ensures sees { IfOk result (SeesContract H.digest_of world.old world.new config.now contract checked.now) }
    ensures stopped { IfErr result (Stopped H.digest_of world.old world.new (foreseen_strings (setup_in H.digest_of world.old) world.old.world
        (spec.candidates (setup_in H.digest_of world.old) config.now world.old.world contract checked.now))) }
{
    let _board = world.board();
    let over = is_over(world, config, contract);
    let events = candidates(alloc, world, config, contract, checked)?;
    let prospects = look_all(alloc, world, config, events.as_slice())?;
    match outlook_of(alloc, config, contract, checked, over, prospects) {
        Ok(outlook) => Ok(outlook),
        Err(_) => Err(Halt::Memory),
    }
}

// The number of the next contract. One of 2^32 counts as out of memory.
fn next(contract: u32) -> Result<u32, OutOfMemory>
    ensures { IfOk result (λ next. next ≡ contract + 1) }
{
    if contract == u32::MAX {
        return Err(AllocError);
    }
    Ok(contract + 1)
}

// Adds an outlook, and answers the number of the next contract.
fn add(list: &mut Seq<Outlook>, contract: u32, outlook: Outlook) -> Result<u32, OutOfMemory>
    ensures added { OnOk result (list.new ≡ list.old ++ outlook ∷ []) }
    ensures next { IfOk result (λ next. next ≡ contract + 1) }
{
    list.push(outlook)?;
    next(contract)
}

// Adds what is told of a contract, and answers the number of the next.
fn look_next<H: Hash32 + Drop>(
    alloc: Global,
    world: &mut World<H>,
    config: &Config,
    list: &mut Seq<Outlook>,
    contract: u32,
    checked: &Checked,
) -> Result<u32, Halt>
    requires few { length world.old.trace < most_records }
    ensures sees { OnOk result (AddsContract H.digest_of world.old world.new config.now contract checked.now list.old list.new) }
    ensures next { IfOk result (λ next. next ≡ contract + 1) }
    ensures stopped { IfErr result (Stopped H.digest_of world.old world.new (foreseen_strings (setup_in H.digest_of world.old) world.old.world
        (spec.candidates (setup_in H.digest_of world.old) config.now world.old.world contract checked.now))) }
{
    let outlook = look_contract(alloc, world, config, contract, checked)?;
    match add(list, contract, outlook) {
        Ok(next) => Ok(next),
        Err(_) => Err(Halt::Memory),
    }
}

// The same of these contracts, numbered from 0 on.
fn look_contracts<H: Hash32 + Drop>(
    alloc: Global,
    world: &mut World<H>,
    config: &Config,
    contracts: &[Checked],
) -> Result<Seq<Outlook>, Halt>
    requires few { length world.old.trace < most_records }
    ensures sees { IfOk result (SeesContracts H.digest_of world.old world.new config.now contracts.now) }
    ensures stopped { IfErr result (Stopped H.digest_of world.old world.new (foreseen_strings (setup_in H.digest_of world.old) world.old.world
        (spec.candidates_from (setup_in H.digest_of world.old) config.now world.old.world 0 contracts.now))) }
{
    let mut list = Seq::new(alloc);
    let mut contract = 0u32;
    for checked in contracts {
        contract = look_next(alloc, world, config, &mut list, contract, checked)?;
    }
    Ok(list)
}

/// What comes next of all contracts of this configuration in this world: what each event that a contract has ahead would come to, what
/// is missing for it, and who can give that now. The ledger, the book and the posted strings stay, and the records too; only the strings
/// of the events are hashed, of which one may collide with another or with a message of the run. A run that has halted is answered by its
/// halt. A run of 16,000 records or more counts as out of memory.
pub fn outlooks<H: Hash32 + Drop>(
    alloc: Global,
    world: &mut World<H>,
    config: &Config,
) -> Result<Seq<Outlook>, Halt>
    ensures looked { IfOk result (Looked H.digest_of world.old world.new config.now) }
    ensures stopped { IfErr result (Stopped H.digest_of world.old world.new (foreseen_strings (setup_in H.digest_of world.old) world.old.world
        (spec.all_candidates (setup_in H.digest_of world.old) config.now world.old.world))) }
{
    if let Some(halt) = world.halt() {
        return Err(halt.again(alloc));
    }
    if world.trace().len() >= MOST_RECORDS {
        return Err(Halt::Memory);
    }
    look_contracts(alloc, world, config, config.contracts())
}
