//! The lines of events and of what they came to.

ghost use Rattle.std.specs.Prelude.{◌≡◌, ◌++◌, codes, map, IfOk, OnOk};
ghost use Rattle.std.specs.Str.{bytes_eq};
ghost use Rattle.spec_text.specs.OutcomeText as texts;
ghost use Rattle.spec_page.specs.Folds as spec;
ghost use Rattle.draw_rows.specs.Turns.{turn_of};

use bm_report::put_reason;
use bm_runfile::{put_event, put_outputs, put_spaced_output};
use bm_text::{put, put_decimal};
use spec_data::OutOfMemory;
use spec_run::{Outcome, Reason};
use spec_text::Entry;
use std::alloc::Global;

#[tactic(auto, using(std::proofs::Common::append_assoc))]
fn put_made(alloc: Global, out: &mut Vec<u8>, made: &[(u32, u64)]) -> Result<(), OutOfMemory>
    ensures { OnOk result (out.new.items ≡ out.old.items ++ texts.generated_text made.now) }
{
    for (number, value) in made {
        put_spaced_output(alloc, out, *number)?;
        put(out, b" ")?;
        put_decimal(alloc, out, *value)?;
    }
    Ok(())
}

#[tactic(auto, using(std::proofs::Common::append_assoc))]
fn put_accepted(
    alloc: Global,
    out: &mut Vec<u8>,
    spent: &[u32],
    made: &[(u32, u64)],
    lock: u32,
) -> Result<(), OutOfMemory>
    ensures { OnOk result (out.new.items ≡ out.old.items ++ texts.accepted_text spent.now made.now lock) }
{
    put(out, b"accepted spends")?;
    put_outputs(alloc, out, spent)?;
    put(out, b" makes")?;
    put_made(alloc, out, made)?;
    put(out, b" lock ")?;
    put_decimal(alloc, out, lock as u64)
}

#[tactic(auto, using(std::proofs::Common::append_assoc))]
fn put_refused(alloc: Global, out: &mut Vec<u8>, reason: &Reason) -> Result<(), OutOfMemory>
    ensures { OnOk result (out.new.items ≡ out.old.items ++ (codes "refused " ++ texts.reason_text reason.now)) }
{
    put(out, b"refused ")?;
    put_reason(alloc, out, reason)
}

fn put_outcome(alloc: Global, out: &mut Vec<u8>, outcome: &Outcome) -> Result<(), OutOfMemory>
    ensures { OnOk result (out.new.items ≡ out.old.items ++ texts.outcome_text outcome.now) }
{
    match outcome {
        Outcome::Done => put(out, b"done"),
        Outcome::Accepted { spent, made, lock } => put_accepted(
            alloc,
            out,
            spent.value().as_slice(),
            made.value().as_slice(),
            *lock,
        ),
        Outcome::Refused(reason) => put_refused(alloc, out, reason),
    }
}

/// An event's line, and its outcome's.
#[tactic(auto, using(std::proofs::Common::append_assoc))]
pub(crate) fn line_of(alloc: Global, entry: &Entry) -> Result<Vec<u8>, OutOfMemory>
    ensures { IfOk result (λ line. line.items ≡ spec.turn_line (turn_of entry.now)) }
{
    let mut line = Vec::new(alloc);
    put_event(alloc, &mut line, &entry.event)?;
    put(&mut line, b"\n")?;
    put_outcome(alloc, &mut line, &entry.outcome)?;
    Ok(line)
}

fn are_same(one: &[u8], other: &[u8]) -> bool
    ensures { result ≡ bytes_eq one.now other.now }
{
    *one == *other
}

/// Whether the lines of two events are equal.
pub(crate) fn are_equal(alloc: Global, one: &Entry, other: &Entry) -> Result<bool, OutOfMemory>
    ensures { IfOk result (λ b. b ≡ spec.are_equal (turn_of one.now) (turn_of other.now)) }
{
    let line = line_of(alloc, one)?;
    let further = line_of(alloc, other)?;
    Ok(are_same(&line, &further))
}
