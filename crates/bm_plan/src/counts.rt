//! What `make` prints of a run that isn't halted.

ghost use Rattle.std.specs.Prelude.{◌≡◌, ◌++◌, codes, length, sum_by, IfOk, OnOk};
ghost use Rattle.spec_run.specs.World.{World};
ghost use Rattle.spec_text.specs.Played.{live_outputs};
ghost use Rattle.spec_text.specs.PlanText as spec;
ghost use Rattle.bm_plan.specs.Told.{numbers_told};

use bm_calculus::Config;
use bm_text::{put, put_decimal};
use spec_data::OutOfMemory;
use std::alloc::{AllocError, Global};

// A word and a number.
#[tactic(auto, using(std::proofs::Common::append_assoc))]
fn put_count(alloc: Global, out: &mut Vec<u8>, word: &[u8], number: u64) -> Result<(), OutOfMemory>
    ensures { OnOk result (out.new.items ≡ out.old.items ++ spec.count_line word.now number) }
{
    put(out, word)?;
    put(out, b" ")?;
    put_decimal(alloc, out, number)?;
    put(out, b"\n")
}

// The value of all outputs, in satoshi; one of more than 64 bits counts as out of memory.
fn value_of(live: &[(u32, u64)]) -> Result<u64, OutOfMemory>
    ensures { IfOk result (λ value. value ≡ sum_by (λ o. o.1) live.now) }
{
    let mut sum = 0u64;
    for (_, value) in live {
        sum = sum.checked_add(*value).ok_or(AllocError)?;
    }
    Ok(sum)
}

#[tactic(auto, using(std::proofs::Common::append_assoc))]
fn put_numbers(
    alloc: Global,
    out: &mut Vec<u8>,
    events: u64,
    steps: u64,
    config: &Config,
    value: u64,
) -> Result<(), OutOfMemory>
    ensures { OnOk result (out.new.items ≡ out.old.items ++ numbers_told events steps config.now value) }
{
    put_count(alloc, out, b"events", events)?;
    put_count(alloc, out, b"steps", steps)?;
    put_count(alloc, out, b"deposits", config.deposits().len() as u64)?;
    put_count(alloc, out, b"contracts", config.active().len() as u64)?;
    put_count(alloc, out, b"value", value)
}

fn told(
    alloc: Global,
    events: u64,
    steps: u64,
    config: &Config,
    live: &[(u32, u64)],
) -> Result<Vec<u8>, OutOfMemory>
    ensures { IfOk result (λ text. text.items ≡ numbers_told events steps config.now (sum_by (λ o. o.1) live.now)) }
{
    let value = value_of(live)?;
    let mut out = Vec::new(alloc);
    put_numbers(alloc, &mut out, events, steps, config, value)?;
    Ok(out)
}

/// How many events and steps a run has, how many deposits and contracts are there at its end, and
/// what its live outputs are worth in satoshi. Values of more than 64 bits together, which no run
/// has, count as out of memory.
pub fn counts_text(
    alloc: Global,
    events: u64,
    steps: u64,
    config: &Config,
    live: &[(u32, u64)],
) -> Result<Vec<u8>, OutOfMemory>
    ensures told { IfOk result (λ text. text.items ≡ numbers_told events steps config.now (sum_by (λ o. o.1) live.now)) }
    ensures counts { (w : World) → live.now ≡ live_outputs w
        → IfOk result (λ text. text.items ≡ spec.counts_text events steps config.now w) }
{
    told(alloc, events, steps, config, live)
}
