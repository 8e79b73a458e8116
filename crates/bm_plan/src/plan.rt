//! What `plan` prints.

ghost use Rattle.std.specs.Prelude.{◌≡◌, ℕ, List, ◌++◌, codes, option_map, Option, IfOk, OnOk};
ghost use Rattle.spec_compiler.specs.Instance.{Instance};
ghost use Rattle.spec_text.specs.PlanText as spec;
ghost use Rattle.bm_compile.specs.Numbered.{numbered};
ghost use Rattle.bm_plan.specs.Told.{compilation_of, plan_told};

use crate::transactions::{put_paths, put_prepared, put_scripts};
use bm_compile::Compiled;
use bm_text::put;
use spec_data::OutOfMemory;
use std::alloc::Global;

#[tactic(auto, using(std::proofs::Common::append_assoc))]
fn put_compiled(alloc: Global, out: &mut Vec<u8>, compiled: &Compiled) -> Result<(), OutOfMemory>
    ensures { OnOk result (out.new.items ≡ out.old.items ++ spec.compiled_text (compilation_of compiled.now)) }
{
    put(out, b"contract 0 compiled\n")?;
    put_scripts(alloc, out, compiled.scripts())?;
    put_prepared(alloc, out, b"init", compiled.init())?;
    put_paths(alloc, out, compiled.paths())
}

fn told(alloc: Global, compiled: Option<&Compiled>) -> Result<Vec<u8>, OutOfMemory>
    ensures { IfOk result (λ text. text.items ≡ plan_told (option_map (λ c. c.now) compiled.entry)) }
{
    let mut out = Vec::new(alloc);
    match compiled {
        None => put(&mut out, b"contract 0 not compiled\n")?,
        Some(compiled) => put_compiled(alloc, &mut out, compiled)?,
    }
    Ok(out)
}

/// The scripts of the contract of a run, its initial transaction, and the transaction of each path,
/// in the order of the text; `None` where the contract isn't compiled.
pub fn plan_text(alloc: Global, compiled: Option<&Compiled>) -> Result<Vec<u8>, OutOfMemory>
    ensures told { IfOk result (λ text. text.items ≡ plan_told (option_map (λ c. c.now) compiled.entry)) }
    ensures compiled { (hash : List ℕ → List ℕ) (s : Option Instance)
        → option_map (λ c. c.now) compiled.entry ≡ option_map (numbered hash) s
        → IfOk result (λ text. text.items ≡ spec.setting_text hash s) }
{
    told(alloc, compiled)
}
