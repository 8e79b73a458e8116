//! The transactions of a contract, each with its name.

ghost use Rattle.std.specs.Prelude.{◌≡◌, ◌++◌, map, option_map, OnOk, IfOk};
ghost use Rattle.bm_audit_listed.specs.Parts as spec;

use bm_compile::Compiled;
use spec_bitcoin::Tx;
use spec_compiler::Prepared;
use spec_data::OutOfMemory;
use spec_terms::Path;
use spec_tool::Which;
use std::alloc::Global;

/// A transaction without witnesses, under its name.
#[derive(Drop)]
pub struct Candidate {
    pub which: Which,
    pub tx: Tx,
}

// The transaction of a path.
fn path_candidate(alloc: Global, path: &Path, prepared: &Prepared) -> Result<Candidate, OutOfMemory>
    ensures { IfOk result (λ c. c ≡ spec.path_candidate (path.now, prepared.now)) }
{
    Ok(Candidate {
        which: Which::At(path.copy(alloc)?),
        tx: prepared.tx.copy(alloc)?,
    })
}

// Adds the transactions of the paths.
fn add_paths(
    alloc: Global,
    paths: &[(Path, Prepared)],
    all: &mut Vec<Candidate>,
) -> Result<(), OutOfMemory>
    ensures { OnOk result (all.new.items ≡ all.old.items ++ map spec.path_candidate paths.now) }
{
    for (path, prepared) in paths {
        all.push(path_candidate(alloc, path, prepared)?)?;
    }
    Ok(())
}

// The transactions of a compiled contract: the initial one, and then those of the paths.
fn set_candidates(alloc: Global, compiled: &Compiled) -> Result<Vec<Candidate>, OutOfMemory>
    ensures { IfOk result (λ all. all.items ≡ spec.candidates_of compiled.now) }
{
    let mut all = Vec::new(alloc);
    all.push(Candidate {
        which: Which::Init,
        tx: compiled.init().tx.copy(alloc)?,
    })?;
    add_paths(alloc, compiled.paths(), &mut all)?;
    Ok(all)
}

/// The transactions of a contract in their order, the initial one first and then those of the paths in the order of the text;
/// none where the contract isn't compiled.
pub fn candidates(alloc: Global, compiled: Option<&Compiled>) -> Result<Vec<Candidate>, OutOfMemory>
    ensures { IfOk result (λ all. all.items ≡ spec.candidates_by (option_map (λ c. c.now) compiled.entry)) }
{
    match compiled {
        None => Ok(Vec::new(alloc)),
        Some(compiled) => set_candidates(alloc, compiled),
    }
}
