//! A contract's transactions before they are signed.

ghost use Rattle.std.specs.Prelude.{◌≡◌, ◌<◌, ◌+◌, ◌-◌, ◌^◌, [], ◌∷◌, map, true, IfOk};
ghost use Rattle.std.specs.List.{list_all};
ghost use Rattle.spec_terms.specs.Precondition as pre_spec;
ghost use Rattle.spec_compiler.specs.Keyed.Transactions as spec;
ghost use Rattle.theory_nodes.specs.Keyed.Walk as walk;
ghost use Rattle.bm_arena.specs.NodeView.{deed_view};
ghost use Rattle.bm_compile.specs.Passes.{listed_script, initial_with};
ghost use Rattle.bm_compile.specs.Seen.{is_bound};

use crate::depositing::{add_deposits, payee_script, pays, persistent_deposits, volatile_value};
use crate::setting::Setting;
use crate::sourcing::KeySource;
use bm_arena::Core;
use bm_hash::Hash32;
use bm_syntax::{Name, Pre};
use spec_bitcoin::TxOut;
use spec_compiler::{Spent, Unsigned};
use spec_data::{Bytes, OutOfMemory, Seq};
use std::alloc::Global;
use theory_nodes::Waiting;

// ---- values

// A balance and what the volatile deposits of these names bring, in satoshi.
fn with_puts(pre: &[Pre], balance: u64, puts: &[Name]) -> u64
    requires { balance + pre_spec.value_of_puts (pre_spec.volatile pre.now) puts.now < 2 ^ 64 }
    ensures { result ≡ balance + pre_spec.value_of_puts (pre_spec.volatile pre.now) puts.now }
{
    let mut total = balance;
    for name in puts {
        total += volatile_value(pre, name);
    }
    total
}

/// What the continuation of a put of these deposits is worth, in satoshi.
pub(crate) fn continued_value(setting: &Setting, balance: u64, puts: &[Name]) -> u64
    requires { balance + pre_spec.value_of_puts (pre_spec.volatile setting.now.advert.pre) puts.now < 2 ^ 64 }
    ensures { result ≡ spec.continued_value setting.now balance puts.now }
{
    let advert = setting.advert();
    with_puts(&advert.pre, balance, puts).saturating_sub(advert.fee)
}

// What the persistent deposits are worth, in satoshi.
fn total_of(pre: &[Pre]) -> u64
    requires { pre_spec.total_of (pre_spec.persistent pre.now) < 2 ^ 64 }
    ensures { result ≡ pre_spec.total_of (pre_spec.persistent pre.now) }
{
    let mut total = 0u64;
    for entry in pre {
        if let Pre::Persistent { value, .. } = entry {
            total += *value;
        }
    }
    total
}

/// What the root is worth, in satoshi.
#[tactic(auto, using(crate::proofs::Payable::total_little))]
pub(crate) fn root_value(setting: &Setting) -> u64
    ensures { result ≡ spec.root_value setting.now }
{
    setting.is_seen_to();
    let advert = setting.advert();
    total_of(&advert.pre).saturating_sub(advert.fee)
}

// ---- outputs

/// The script of the choice of this number, nothing where there is none.
pub(crate) fn script_at(scripts: &[Bytes], number: usize) -> &[u8]
    ensures { result.now ≡ listed_script scripts.now number }
{
    match scripts.get(number) {
        Some(script) => script.as_slice(),
        None => &[],
    }
}

// A list of one output.
fn one(alloc: Global, output: TxOut) -> Result<Seq<TxOut>, OutOfMemory>
    ensures { IfOk result (λ outputs. outputs ≡ output ∷ []) }
{
    let mut outputs = Seq::new(alloc);
    outputs.push(output)?;
    Ok(outputs)
}

// The output of a put's continuation.
fn continued_outputs<H: Hash32>(
    alloc: Global,
    hasher: &H,
    setting: &Setting,
    scripts: &[Bytes],
    balance: u64,
    puts: &[Name],
    next: u32,
) -> Result<Seq<TxOut>, OutOfMemory>
    requires { balance + pre_spec.value_of_puts (pre_spec.volatile setting.now.advert.pre) puts.now < 2 ^ 64 }
    ensures { IfOk result (λ outputs. outputs
        ≡ spec.pays (H.digest_of hasher.now) (listed_script scripts.now next) (spec.continued_value setting.now balance puts.now) ∷ []) }
{
    let value = continued_value(setting, balance, puts);
    let output = pays(alloc, hasher, script_at(scripts, next as usize), value)?;
    one(alloc, output)
}

// The output of a party that withdraws.
fn withdrawn_outputs<H: Hash32, K: KeySource>(
    alloc: Global,
    hasher: &H,
    source: &K,
    setting: &Setting,
    balance: u64,
    party: &Name,
) -> Result<Seq<TxOut>, OutOfMemory>
    ensures { let hash = H.digest_of hasher.now in let fee = setting.now.advert.fee in
        IfOk result (λ outputs. outputs ≡ spec.pays_party hash (K.keys source.now) party.now (balance - fee) ∷ []) }
{
    let script = payee_script(alloc, hasher, source, party.bytes())?;
    let value = balance.saturating_sub(setting.advert().fee);
    one(alloc, TxOut { value, script })
}

// The outputs of a split's parts.
fn part_outputs<H: Hash32>(
    alloc: Global,
    hasher: &H,
    scripts: &[Bytes],
    parts: &[(u64, u32)],
) -> Result<Seq<TxOut>, OutOfMemory>
    ensures { let hash = H.digest_of hasher.now in
        IfOk result (λ outputs. outputs ≡ map (λ p. spec.pays hash (listed_script scripts.now p.1) p.0) parts.now) }
{
    let mut outputs = Seq::new(alloc);
    for (value, choice) in parts {
        outputs.push(pays(alloc, hasher, script_at(scripts, *choice as usize), *value)?)?;
    }
    Ok(outputs)
}

// The outputs of the transaction of a branch that does this, where its position has this balance in satoshi.
fn outputs_of<H: Hash32, K: KeySource>(
    alloc: Global,
    hasher: &H,
    source: &K,
    setting: &Setting,
    scripts: &[Bytes],
    balance: u64,
    core: &Core,
) -> Result<Seq<TxOut>, OutOfMemory>
    requires { let puts = walk.deed_puts (deed_view core.now) in
        balance + pre_spec.value_of_puts (pre_spec.volatile setting.now.advert.pre) puts < 2 ^ 64 }
    ensures { let deed = deed_view core.now in
        IfOk result (λ outputs. outputs ≡ walk.deed_outputs (H.digest_of hasher.now) (K.keys source.now) setting.now (listed_script scripts.now) balance deed) }
{
    match core {
        Core::PutReveal { puts, next, .. } => continued_outputs(
            alloc, hasher, setting, scripts, balance, puts, *next,
        ),
        Core::Withdraw { party } => withdrawn_outputs(
            alloc, hasher, source, setting, balance, party,
        ),
        Core::Split { parts } => part_outputs(alloc, hasher, scripts, parts),
    }
}

// ---- transactions

// The output of a choice that waits.
fn spent_of(alloc: Global, scripts: &[Bytes], waiting: &Waiting) -> Result<Spent, OutOfMemory>
    ensures { IfOk result (λ spent. spent ≡ walk.spent_of (listed_script scripts.now) waiting.now) }
{
    Ok(Spent {
        outpoint: waiting.outpoint,
        script: Bytes::from_slice(alloc, script_at(scripts, waiting.choice as usize))?,
        value: waiting.value,
    })
}

// The names that a branch puts.
fn puts_of(core: &Core) -> &[Name]
    ensures { result.now ≡ walk.deed_puts (deed_view core.now) }
{
    match core {
        Core::PutReveal { puts, .. } => puts,
        _ => &[],
    }
}

// What the transaction of a branch that does this spends: the output of its position first.
fn spends_of<H: Hash32, K: KeySource>(
    alloc: Global,
    hasher: &H,
    source: &K,
    setting: &Setting,
    scripts: &[Bytes],
    waiting: &Waiting,
    core: &Core,
) -> Result<Seq<Spent>, OutOfMemory>
    requires { list_all (is_bound setting.now.bound) (walk.deed_puts (deed_view core.now)) ≡ true }
    ensures { let puts = walk.deed_puts (deed_view core.now) in
        IfOk result (λ spends. spends
        ≡ walk.spent_of (listed_script scripts.now) waiting.now ∷ spec.put_deposits (H.digest_of hasher.now) (K.keys source.now) setting.now puts) }
{
    let mut spends = Seq::new(alloc);
    spends.push(spent_of(alloc, scripts, waiting)?)?;
    add_deposits(alloc, hasher, source, setting, &mut spends, puts_of(core))?;
    Ok(spends)
}

/// The transaction of a branch of a choice that waits.
pub(crate) fn branch_unsigned<H: Hash32, K: KeySource>(
    alloc: Global,
    hasher: &H,
    source: &K,
    setting: &Setting,
    scripts: &[Bytes],
    waiting: &Waiting,
    lock: u32,
    core: &Core,
) -> Result<Unsigned, OutOfMemory>
    requires sum { let puts = walk.deed_puts (deed_view core.now) in
        waiting.now.value + pre_spec.value_of_puts (pre_spec.volatile setting.now.advert.pre) puts < 2 ^ 64 }
    requires bound { list_all (is_bound setting.now.bound) (walk.deed_puts (deed_view core.now)) ≡ true }
    ensures { let deed = deed_view core.now in
        IfOk result (λ made. made
        ≡ walk.node_unsigned (H.digest_of hasher.now) (K.keys source.now) setting.now (listed_script scripts.now) waiting.now lock deed) }
{
    Ok(Unsigned {
        spends: spends_of(alloc, hasher, source, setting, scripts, waiting, core)?,
        outputs: outputs_of(alloc, hasher, source, setting, scripts, waiting.value, core)?,
        lock,
    })
}

/// The initial transaction, by the script of the root.
pub(crate) fn initial_unsigned<H: Hash32, K: KeySource>(
    alloc: Global,
    hasher: &H,
    source: &K,
    setting: &Setting,
    scripts: &[Bytes],
) -> Result<Unsigned, OutOfMemory>
    ensures { let hash = H.digest_of hasher.now in
        IfOk result (λ made. made ≡ initial_with hash (K.keys source.now) setting.now (listed_script scripts.now 0)) }
{
    let value = root_value(setting);
    let output = pays(alloc, hasher, script_at(scripts, 0), value)?;
    Ok(Unsigned {
        spends: persistent_deposits(alloc, hasher, source, setting)?,
        outputs: one(alloc, output)?,
        lock: 0,
    })
}
