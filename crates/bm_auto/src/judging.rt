//! A strategy file is judged beside a run.

ghost use Rattle.std.specs.Prelude.{◌≡◌, ◌++◌, codes, Some, Err, IfOk, OnOk};
ghost use Rattle.std.specs.Fmt.{decimal};
ghost use Rattle.spec_tool.specs.Sizes.{rule_line_bytes};
ghost use Rattle.spec_tool.specs.AutoText as spec;
ghost use Rattle.bm_auto.specs.Judged.{judged};

use crate::error::StrategyError;
use crate::read::{MOST_STRATEGY_BYTES, read_strategy};
use bm_text::{put, put_decimal};
use spec_data::{Bytes, MOST_EVENTS, MOST_RUN_BYTES, OutOfMemory};
use spec_run::{Event, Header};
use spec_tool::Rule;
use std::alloc::{AllocError, Global};

/// The bytes that the line of a rule's event may have, with its end.
const RULE_LINE_BYTES: u128 = 128;

/// The number is that of the definitions.
pub fn rule_lines_are_defined()
    ensures { RULE_LINE_BYTES ≡ rule_line_bytes }
{}

/// How a strategy file is judged.
#[derive(Drop)]
pub enum StrategyJudgement {
    /// These are its rules.
    Taken(Vec<Rule>),
    /// It is refused for this, in words.
    Refused(Bytes),
}

// Some words.
fn refuse(alloc: Global, why: &[u8]) -> Result<StrategyJudgement, OutOfMemory>
    ensures { IfOk result (λ j. judged j ≡ Err why.now) }
{
    Ok(StrategyJudgement::Refused(Bytes::from_slice(alloc, why)?))
}

#[tactic(auto, using(std::proofs::Common::append_assoc))]
fn put_line(alloc: Global, out: &mut Vec<u8>, line: u32) -> Result<(), OutOfMemory>
    ensures { OnOk result (out.new.items ≡ out.old.items ++ (codes "line " ++ decimal line)) }
{
    put(out, b"line ")?;
    put_decimal(alloc, out, line as u64)
}

fn refuse_line(alloc: Global, line: u32) -> Result<StrategyJudgement, OutOfMemory>
    ensures { IfOk result (λ j. judged j ≡ Err (codes "line " ++ decimal line)) }
{
    let mut why = Vec::new(alloc);
    put_line(alloc, &mut why, line)?;
    Ok(StrategyJudgement::Refused(Bytes::of(why)))
}

// Whether the run has room for an event of each rule.
fn has_room(events: &[Event], rules: &[Rule]) -> bool
    ensures { result ≡ spec.has_room events.now rules.now }
{
    let count = events.len() as u128 + rules.len() as u128;
    count <= MOST_EVENTS as u128
}

// Whether the run file has room for a line of each rule.
fn fits_within(run_bytes: usize, rules: &[Rule]) -> bool
    ensures { result ≡ spec.fits_within run_bytes rules.now }
{
    let bytes = run_bytes as u128 + RULE_LINE_BYTES * rules.len() as u128;
    bytes < MOST_RUN_BYTES as u128
}

// The rules, where they stay within the limits of a run file.
fn judge_rules(
    alloc: Global,
    run_bytes: usize,
    events: &[Event],
    rules: Vec<Rule>,
) -> Result<StrategyJudgement, OutOfMemory>
    ensures { IfOk result (λ j. judged j ≡ spec.rules_within run_bytes events.now rules.items) }
{
    if !has_room(events, rules.as_slice()) {
        return refuse(alloc, b"limit Events");
    }
    if !fits_within(run_bytes, rules.as_slice()) {
        return refuse(alloc, b"limit Size");
    }
    Ok(StrategyJudgement::Taken(rules))
}

// How the text of a strategy file is judged.
fn judge_text(
    alloc: Global,
    run_bytes: usize,
    header: &Header,
    events: &[Event],
    text: &[u8],
) -> Result<StrategyJudgement, OutOfMemory>
    ensures { IfOk result (λ j. judged j ≡ spec.strategy_in run_bytes header.now events.now (Some text.now)) }
{
    if text.len() > MOST_STRATEGY_BYTES {
        return Err(AllocError);
    }
    match read_strategy(alloc, text, header) {
        Ok(rules) => judge_rules(alloc, run_bytes, events, rules),
        Err(StrategyError::BadLine(line)) => refuse_line(alloc, line),
        Err(StrategyError::Limit(_)) => refuse(alloc, b"limit Events"),
        Err(StrategyError::Memory) => Err(AllocError),
    }
}

/// Judges the file of a strategy beside a run file of so many bytes, whose header and events these are. None of its bytes are given
/// where it is too long; a text of more than 1,048,576 bytes, which no read gives, counts as out of memory.
pub fn judge_strategy(
    alloc: Global,
    run_bytes: usize,
    header: &Header,
    events: &[Event],
    text: &Option<Bytes>,
) -> Result<StrategyJudgement, OutOfMemory>
    ensures { IfOk result (λ j. judged j ≡ spec.strategy_in run_bytes header.now events.now text.now) }
{
    match text {
        None => refuse(alloc, b"limit Size"),
        Some(bytes) => judge_text(alloc, run_bytes, header, events, bytes.as_slice()),
    }
}
