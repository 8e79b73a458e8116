//! What the commands on files with partially signed transactions reply.

ghost use Rattle.std.specs.Prelude.{◌≡◌, option_map, Ok, IfOk};
ghost use Rattle.spec_tool.specs.PsbtBytes as bytes;
ghost use Rattle.spec_tool.specs.PsbtText as spec;
ghost use Rattle.spec_tool.specs.Replies.{printed};

use crate::files::psbt_in;
use crate::replies::{conflict_refused, file_refused, refused, shown};
use bm_psbt::{CombineError, Psbt, combine};
use spec_data::OutOfMemory;
use spec_tool::Reply;
use std::alloc::{AllocError, Global};

/// What `psbt FILE` answers: what the file says, or why it is refused. A file that has too many
/// bytes is given as `None`.
pub fn psbt_shown(alloc: Global, text: Option<&[u8]>) -> Result<Reply, OutOfMemory>
    ensures { IfOk result (λ a. printed a ≡ spec.shown_answer (option_map (λ t. t.now) text.entry)) }
{
    match psbt_in(alloc, text)? {
        Ok(psbt) => shown(alloc, &psbt),
        Err(refusal) => file_refused(alloc, 0, refusal),
    }
}

// What both say together.
fn combined(alloc: Global, first: &Psbt, second: &Psbt) -> Result<Reply, OutOfMemory>
    ensures { IfOk result (λ a. printed a ≡ spec.combined_answer (bytes.combined first.now second.now)) }
{
    match combine(alloc, first, second) {
        Ok(psbt) => shown(alloc, &psbt),
        Err(CombineError::OtherTx) => refused(alloc, b"other"),
        Err(CombineError::Conflict(input)) => conflict_refused(alloc, input as u64),
        Err(CombineError::Memory) => Err(AllocError),
    }
}

// What the first says together with the second file.
fn with_second(alloc: Global, first: &Psbt, second: Option<&[u8]>) -> Result<Reply, OutOfMemory>
    ensures { IfOk result (λ a. printed a ≡ spec.joined_judged (Ok first.now) (spec.psbt_in (option_map (λ t. t.now) second.entry))) }
{
    match psbt_in(alloc, second)? {
        Ok(second) => combined(alloc, first, &second),
        Err(refusal) => file_refused(alloc, 1, refusal),
    }
}

/// What `psbt FILE FILE` answers: what both files say together, or why they are refused, the first
/// file's refusal first. A file that has too many bytes is given as `None`.
pub fn psbt_joined(
    alloc: Global,
    first: Option<&[u8]>,
    second: Option<&[u8]>,
) -> Result<Reply, OutOfMemory>
    ensures { IfOk result (λ a. printed a
        ≡ spec.joined_answer (option_map (λ t. t.now) first.entry) (option_map (λ t. t.now) second.entry)) }
{
    match psbt_in(alloc, first)? {
        Ok(first) => with_second(alloc, &first, second),
        Err(refusal) => file_refused(alloc, 0, refusal),
    }
}
