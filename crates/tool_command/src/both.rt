//! The run and the contracts of a command are judged, the run first.

ghost use Rattle.std.specs.Prelude.{◌≤◌, ◌∷◌, [], length, Ok, IfOk};
ghost use Rattle.spec_tool.specs.Reads.{text_at};
ghost use Rattle.spec_tool.specs.Answers.{run_in};
ghost use Rattle.tool_command.specs.Judges.{JudgesFiles, IsTakenIfAny};

use crate::contracts::contracts_in;
use crate::error::{ContractsError, JudgeError};
use crate::replies::{contract_refused, run_refused};
use crate::run::run_in;
use bm_runfile::Run;
use bm_wellformed::Checked;
use spec_data::{Bytes, OutOfMemory};
use spec_tool::Reply;
use std::alloc::{AllocError, Global};
use theory_text::run_files_spell_runs;

/// How the files of a run and of its contracts are judged.
#[derive(Drop)]
pub enum Judgement {
    /// One is refused, and this is replied.
    Refused(Reply),
    /// All are taken.
    Taken(Run, Vec<Checked>),
}

// The contracts beside a run that is taken.
fn judge_contracts(
    alloc: Global,
    run: Run,
    texts: &[Option<Bytes>],
) -> Result<Judgement, OutOfMemory>
    ensures { IfOk result (JudgesFiles (Ok run) texts.now) }
{
    match contracts_in(alloc, texts) {
        Ok(contracts) => Ok(Judgement::Taken(run, contracts)),
        Err(ContractsError::Refused(number, why)) => {
            Ok(Judgement::Refused(contract_refused(alloc, number, why.as_slice())?))
        }
        Err(ContractsError::Memory) => Err(AllocError),
    }
}

/// Judges the file of a run and the files of its contracts.
pub fn judge_both(
    alloc: Global,
    run: &Option<Bytes>,
    contracts: &[Option<Bytes>],
) -> Result<Judgement, OutOfMemory>
    ensures files { IfOk result (JudgesFiles (run_in run.now) contracts.now) }
    ensures taken { IfOk result IsTakenIfAny }
{
    run_files_spell_runs();
    match run_in(alloc, run) {
        Ok(taken) => judge_contracts(alloc, taken, contracts),
        Err(JudgeError::Refused(why)) => Ok(Judgement::Refused(run_refused(
            alloc,
            why.as_slice(),
        )?)),
        Err(JudgeError::Memory) => Err(AllocError),
    }
}

/// Judges the first two texts, those of a run and of its contract.
pub fn judge_two(alloc: Global, texts: &[Option<Bytes>]) -> Result<Judgement, OutOfMemory>
    requires { 2 ≤ length texts.now }
    ensures files { IfOk result (JudgesFiles (run_in (text_at texts.now 0)) (text_at texts.now 1 ∷ [])) }
    ensures taken { IfOk result IsTakenIfAny }
{
    judge_both(alloc, &texts[0], &texts[1..2])
}
