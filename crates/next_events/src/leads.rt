//! What taking a branch of an active contract makes.

ghost use Rattle.std.specs.Prelude.{◌≡◌, ◌+◌, ◌-◌, ◌++◌, ◌∷◌, [], Some, option_map, IfOk, OnOk};
ghost use Rattle.spec_data.specs.Lists as lists;
ghost use Rattle.spec_data.specs.Lists.{look_up};
ghost use Rattle.spec_calculus.specs.Beginning as beginning;
ghost use Rattle.spec_calculus.specs.Branches.{active_at, gone, part_values, total_value};
ghost use Rattle.spec_calculus.specs.Steps.{branch_at};
ghost use Rattle.spec_next.specs.Leads as spec;
ghost use Rattle.bm_syntax.specs.View.{guarded, parts_view};
ghost use Rattle.bm_calculus.specs.Answers.{shown, parts_of};

use bm_calculus::{Active, Config};
use bm_syntax::{Guarded, Part, branch_at as branch_under, core, longer};
use bm_wellformed::Checked;
use spec_calculus::Deposit;
use spec_data::{Name, OutOfMemory, Seq};
use spec_next::{Lead, Made};
use spec_terms::{Path, PathStep};
use std::alloc::{AllocError, Global};
use std::collections::VecDeque;
use std::marker::Model;

// ---- deposits that are put in

// The bindings of a contract, none where it isn't advertised.
fn bindings_of(config: &Config, contract: u32) -> &[(Name, u32)]
    ensures { result.now ≡ beginning.bindings_of config.now.advertised contract }
{
    match config.bindings(contract) {
        Some(bindings) => bindings,
        None => &[],
    }
}

// The number that a name is bound to.
fn bound_to(bindings: &[(Name, u32)], name: &Name) -> Option<u32>
    ensures { result ≡ look_up name.now bindings.now }
{
    for binding in bindings {
        if binding.0 == *name {
            return Some(binding.1);
        }
    }
    None
}

// The numbers that these names are bound to, in order.
fn numbers_of(
    alloc: Global,
    bindings: &[(Name, u32)],
    names: &[Name],
) -> Result<Vec<u32>, OutOfMemory>
    ensures { IfOk result (λ v. v.items ≡ beginning.numbers_of bindings.now names.now) }
{
    let mut numbers = Vec::new(alloc);
    for name in names {
        if let Some(number) = bound_to(bindings, name) {
            numbers.push(number)?;
        }
    }
    Ok(numbers)
}

// The sum. One of 2^64 counts as out of memory.
fn sum(a: u64, b: u64) -> Result<u64, OutOfMemory>
    ensures { IfOk result (λ n. n ≡ a + b) }
{
    match a.checked_add(b) {
        Some(sum) => Ok(sum),
        None => Err(AllocError),
    }
}

fn has_number(number: u32, numbers: &[u32]) -> bool
    ensures { result ≡ lists.has_number number numbers.now }
{
    numbers.contains(&number)
}

// What those of these deposits hold that have one of these numbers.
fn gone_value(live: &VecDeque<Deposit>, numbers: &[u32]) -> Result<u64, OutOfMemory>
    ensures { IfOk result (λ n. n ≡ total_value (gone live.now.items numbers.now)) }
{
    let mut total = 0u64;
    for deposit in live {
        if has_number(deposit.number, numbers) {
            total = sum(total, deposit.value)?;
        }
    }
    Ok(total)
}

// What the deposits of these names hold that are there.
fn put_value(
    alloc: Global,
    config: &Config,
    contract: u32,
    puts: &[Name],
) -> Result<u64, OutOfMemory>
    ensures { IfOk result (λ n. n ≡ spec.put_value config.now contract puts.now) }
{
    let numbers = numbers_of(alloc, bindings_of(config, contract), puts)?;
    gone_value(config.deposits(), &numbers)
}

// ---- branches

// The number of the next part. One of 2^32 counts as out of memory.
fn next(part: u32) -> Result<u32, OutOfMemory>
    ensures { IfOk result (λ next. next ≡ part + 1) }
{
    if part == u32::MAX {
        return Err(AllocError);
    }
    Ok(part + 1)
}

// Adds a part behind a path, and answers the number of the next.
fn put_part(
    alloc: Global,
    made: &mut Seq<Made>,
    path: &Path,
    number: u32,
    value: u64,
) -> Result<u32, OutOfMemory>
    ensures made { OnOk result (made.new ≡ made.old ++ Made.Led (path.now ++ PathStep.Part number ∷ []) value ∷ []) }
    ensures next { IfOk result (λ next. next ≡ number + 1) }
{
    let position = longer(alloc, path, PathStep::Part(number))?;
    made.push(Made::Led { position, value })?;
    next(number)
}

// The parts of a split behind a path.
#[tactic(auto, using(std::proofs::Common::append_assoc))]
fn parts_led(alloc: Global, path: &Path, parts: &[Part]) -> Result<Seq<Made>, OutOfMemory>
    ensures { IfOk result (λ made. made ≡ spec.parts_led path.now 0 (part_values (parts_view parts.now))) }
{
    let mut made = Seq::new(alloc);
    let mut number = 0u32;
    for part in parts {
        number = put_part(alloc, &mut made, path, number, part.value)?;
    }
    Ok(made)
}

fn one(alloc: Global, output: Made) -> Result<Seq<Made>, OutOfMemory>
    ensures { IfOk result (λ made. made ≡ output ∷ []) }
{
    let mut made = Seq::new(alloc);
    made.push(output)?;
    Ok(made)
}

// What a core makes that puts deposits in or reveals secrets.
fn continued(
    alloc: Global,
    config: &Config,
    contract: u32,
    path: &Path,
    balance: u64,
    fee: u64,
    puts: &[Name],
) -> Result<Seq<Made>, OutOfMemory>
    ensures { IfOk result (λ made. made ≡ Made.Led path.now (balance + spec.put_value config.now contract puts.now - fee) ∷ []) }
{
    let put = put_value(alloc, config, contract, puts)?;
    let held = sum(balance, put)?;
    let position = path.copy(alloc)?;
    one(
        alloc,
        Made::Led {
            position,
            value: held.saturating_sub(fee),
        },
    )
}

// What a core makes.
fn made_by(
    alloc: Global,
    config: &Config,
    contract: u32,
    path: &Path,
    balance: u64,
    fee: u64,
    taken: &Guarded,
) -> Result<Seq<Made>, OutOfMemory>
    ensures { IfOk result (λ made. made ≡ spec.made_by config.now contract path.now balance fee (guarded taken.now)) }
{
    match taken {
        Guarded::PutReveal { puts, .. } => {
            continued(alloc, config, contract, path, balance, fee, puts)
        }
        Guarded::Withdraw { party } => one(
            alloc,
            Made::Paid {
                party: *party,
                value: balance.saturating_sub(fee),
            },
        ),
        Guarded::Split { parts } => parts_led(alloc, path, parts),
        _ => Ok(Seq::new(alloc)),
    }
}

// The path of a branch of an active contract of this contract, and what it makes.
fn lead_of(
    alloc: Global,
    config: &Config,
    branch: u32,
    active: &Active<'_>,
    fee: u64,
    taken: &Guarded,
) -> Result<Lead, OutOfMemory>
    ensures { let path = active.now.position.now ++ PathStep.Branch branch ∷ [] in
        let core = guarded taken.now in
        IfOk result (λ lead. lead ≡ spec.lead_with config.now active.now.contract path active.now.balance fee core) }
{
    let path = longer(alloc, active.position, PathStep::Branch(branch))?;
    let made = made_by(
        alloc,
        config,
        active.contract,
        &path,
        active.balance,
        fee,
        core(taken),
    )?;
    Ok(Lead { path, made })
}

// The same of the branch of this number at the position of an active contract of this contract, if it is there.
fn standing_lead(
    alloc: Global,
    config: &Config,
    output: u32,
    branch: u32,
    active: &Active<'_>,
    checked: &Checked,
) -> Result<Option<Lead>, OutOfMemory>
    requires active { parts_of (active_at config.now.active output) ≡ shown (Some active.now) }
    requires contract { beginning.contract_at config.now.contracts active.now.contract ≡ Some checked.now }
    ensures { IfOk result (λ lead. lead ≡ spec.lead_at config.now output branch) }
{
    let advert = checked.advert();
    match branch_under(&advert.root, active.position, branch) {
        None => Ok(None),
        Some(taken) => Ok(Some(lead_of(alloc, config, branch, active, advert.fee, taken)?)),
    }
}

/// The path of the branch of this number of an active contract, and what it pays or leads to, if there is such a branch.
pub fn lead_at(
    alloc: Global,
    config: &Config,
    output: u32,
    branch: u32,
) -> Result<Option<Lead>, OutOfMemory>
    ensures { IfOk result (λ lead. lead ≡ spec.lead_at config.now output branch) }
{
    let Some(active) = config.contract(output) else {
        return Ok(None);
    };
    let Some(checked) = config.checked(active.contract) else {
        return Ok(None);
    };
    standing_lead(alloc, config, output, branch, &active, checked)
}
