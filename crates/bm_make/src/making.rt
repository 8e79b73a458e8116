//! The contract and the run of a number.

ghost use Rattle.std.specs.Prelude.{◌≡◌, ◌≤◌, ◌++◌, length, IfOk, Ok};
ghost use Rattle.spec_terms.specs.Faults.{IsWellFormed};
ghost use Rattle.spec_text.specs.Canonical.{advert_text};
ghost use Rattle.spec_text.specs.RunText.{header_text, run_text};
ghost use Rattle.spec_text.specs.Refusals.{contract_of, run_of};
ghost use Rattle.spec_text.specs.Generator as spec;
ghost use Rattle.spec_tool.specs.Commands.{most_size};
ghost use Rattle.bm_make.specs.Lines.{lines};

use crate::contract::put_contract;
use crate::draws::Draws;
use crate::events::put_events;
use crate::header::put_header;
use crate::secrets::{Generated, secrets};
use spec_data::OutOfMemory;
use std::alloc::Global;
use theory_generator::{generated_contracts_are_taken, generated_runs_are_taken};

fn contract_text(alloc: Global, secrets: &[Generated]) -> Result<Vec<u8>, OutOfMemory>
    requires { length secrets.now ≤ 30 }
    ensures { IfOk result (λ t. t.items ≡ advert_text (spec.generated_advert secrets.now)) }
{
    let mut out = Vec::new(alloc);
    put_contract(alloc, &mut out, secrets)?;
    Ok(out)
}

fn run_text(
    alloc: Global,
    secrets: &[Generated],
    draws: Draws,
    size: u64,
) -> Result<Vec<u8>, OutOfMemory>
    requires secrets { length secrets.now ≤ 30 }
    requires size { size ≤ 30 }
    ensures { IfOk result (λ t. t.items ≡ header_text (spec.generated_header secrets.now) ++ lines (spec.generated_events size draws.state)) }
{
    let mut out = Vec::new(alloc);
    put_header(alloc, &mut out, secrets)?;
    put_events(alloc, &mut out, draws, size)?;
    Ok(out)
}

/// The two texts.
fn texts(alloc: Global, number: u64, size: u32) -> Result<(Vec<u8>, Vec<u8>), OutOfMemory>
    requires { size ≤ 30 }
    ensures contract { IfOk result (λ t. t.0.items ≡ advert_text (spec.generated_contract number size)) }
    ensures run { IfOk result (λ t. t.1.items ≡ run_text (spec.generated_run number size)) }
{
    let mut draws = Draws { state: number };
    let made = secrets(alloc, &mut draws, size as u8)?;
    let contract = contract_text(alloc, &made)?;
    let run = run_text(alloc, &made, draws, size as u64)?;
    Ok((contract, run))
}

/// A contract and a run, as texts, that a number makes: the contract has so many stages, of which the run plays each and
/// makes 300 gifts after it. The first text is read as a contract that is well-formed, the second as a valid run.
pub fn make(alloc: Global, number: u64, size: u32) -> Result<(Vec<u8>, Vec<u8>), OutOfMemory>
    requires { size ≤ most_size }
    ensures contract { IfOk result (λ t. t.0.items ≡ advert_text (spec.generated_contract number size)) }
    ensures run { IfOk result (λ t. t.1.items ≡ run_text (spec.generated_run number size)) }
    ensures well_formed { IsWellFormed (spec.generated_contract number size) }
    ensures taken { IfOk result (λ t. contract_of t.0.items ≡ Ok (spec.generated_contract number size)) }
    ensures valid { IfOk result (λ t. run_of t.1.items ≡ Ok (spec.generated_run number size)) }
{
    generated_contracts_are_taken();
    generated_runs_are_taken();
    texts(alloc, number, size)
}
