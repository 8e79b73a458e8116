//! The lines of what is missing: each once, and one for all parties that lack the same.

ghost use Rattle.std.specs.Prelude.{◌≡◌, [], ◌++◌, map, flat_map, codes, IfOk, OnOk};
ghost use Rattle.std.specs.Fmt.{decimal};
ghost use Rattle.spec_next.specs.Prospects.{awaited as awaited_of};
ghost use Rattle.spec_next.specs.Together as spec;
ghost use Rattle.spec_text.specs.StepText.{branch_text};

use crate::once::{add_line, add_name};
use crate::requirement::put_requirement;
use bm_runfile::put_branch;
use bm_text::{put, put_decimal};
use next_events::awaited;
use spec_data::{Bytes, Name, OutOfMemory, Seq};
use spec_next::Requirement;
use std::alloc::Global;

// ---- what several parties lack

// Whether the same is missing of their parties.
fn is_alike(requirement: &Requirement, other: &Requirement) -> bool
    ensures { result ≡ spec.is_alike requirement.now other.now }
{
    match (requirement, other) {
        (
            Requirement::Commitment { contract: a, .. },
            Requirement::Commitment { contract: b, .. },
        ) => *a == *b,
        (
            Requirement::Endorsement { contract: a, .. },
            Requirement::Endorsement { contract: b, .. },
        ) => *a == *b,
        (Requirement::Start { contract: a, .. }, Requirement::Start { contract: b, .. }) => *a
            == *b,
        (
            Requirement::Authorisation {
                output: a,
                branch: i,
                ..
            },
            Requirement::Authorisation {
                output: b,
                branch: j,
                ..
            },
        ) => *a == *b && *i == *j,
        _ => false,
    }
}

// Adds the party that is to give it, if it isn't among the others.
fn add_awaited(names: &mut Seq<Name>, requirement: &Requirement) -> Result<(), OutOfMemory>
    ensures { OnOk result (names.new ≡ spec.once_onto names.old (spec.named (awaited_of requirement.now))) }
{
    match awaited(requirement) {
        None => Ok(()),
        Some(name) => add_name(names, name),
    }
}

// The parties of whom the same is missing among these, each once.
#[tactic(auto, using(crate::proofs::Appended::once_append))]
fn parties_alike(
    alloc: Global,
    all: &[Requirement],
    requirement: &Requirement,
) -> Result<Seq<Name>, OutOfMemory>
    ensures { IfOk result (λ names. names ≡ spec.parties_alike all.now requirement.now) }
{
    let mut names = Seq::new(alloc);
    for other in all {
        if is_alike(requirement, other) {
            add_awaited(&mut names, other)?;
        }
    }
    Ok(names)
}

// ---- lines

#[tactic(auto, using(std::proofs::Common::append_assoc))]
fn put_names(out: &mut Vec<u8>, names: &[Name]) -> Result<(), OutOfMemory>
    ensures { OnOk result (out.new.items ≡ out.old.items ++ flat_map spec.spaced names.now) }
{
    for name in names {
        put(out, b" ")?;
        put(out, name.bytes())?;
    }
    Ok(())
}

fn put_ending(out: &mut Vec<u8>, parties: &[Name]) -> Result<(), OutOfMemory>
    ensures { OnOk result (out.new.items ≡ out.old.items ++ spec.ending parties.now) }
{
    match parties {
        [_] => put(out, b"s "),
        _ => put(out, b" "),
    }
}

// All who lack it, and what they are to do.
#[tactic(auto, using(std::proofs::Common::append_assoc))]
fn put_together(
    alloc: Global,
    out: &mut Vec<u8>,
    all: &[Requirement],
    requirement: &Requirement,
    verb: &[u8],
) -> Result<(), OutOfMemory>
    ensures { OnOk result (out.new.items ≡ out.old.items
        ++ spec.together_text (spec.parties_alike all.now requirement.now) verb.now []) }
{
    let parties = parties_alike(alloc, all, requirement)?;
    put(out, b"needs")?;
    put_names(out, parties.as_slice())?;
    put(out, b" ")?;
    put(out, verb)?;
    put_ending(out, parties.as_slice())
}

// The same with the contract.
#[tactic(auto, using(std::proofs::Common::append_assoc))]
fn put_of_contract(
    alloc: Global,
    out: &mut Vec<u8>,
    all: &[Requirement],
    requirement: &Requirement,
    verb: &[u8],
    contract: u32,
) -> Result<(), OutOfMemory>
    ensures { OnOk result (out.new.items ≡ out.old.items
        ++ spec.together_text (spec.parties_alike all.now requirement.now) verb.now (decimal contract)) }
{
    put_together(alloc, out, all, requirement, verb)?;
    put_decimal(alloc, out, contract as u64)
}

// The same with the branch.
#[tactic(auto, using(std::proofs::Common::append_assoc))]
fn put_of_branch(
    alloc: Global,
    out: &mut Vec<u8>,
    all: &[Requirement],
    requirement: &Requirement,
    output: u32,
    branch: u32,
) -> Result<(), OutOfMemory>
    ensures { OnOk result (out.new.items ≡ out.old.items
        ++ spec.together_text (spec.parties_alike all.now requirement.now) (codes "authorise") (branch_text output branch)) }
{
    put_together(alloc, out, all, requirement, b"authorise")?;
    put_branch(alloc, out, output, branch)
}

fn put_joined(
    alloc: Global,
    out: &mut Vec<u8>,
    all: &[Requirement],
    requirement: &Requirement,
) -> Result<(), OutOfMemory>
    ensures { OnOk result (out.new.items ≡ out.old.items ++ spec.joined_text all.now requirement.now) }
{
    match requirement {
        Requirement::Commitment { contract, .. } => {
            put_of_contract(alloc, out, all, requirement, b"commit", *contract)
        }
        Requirement::Endorsement { contract, .. } => {
            put_of_contract(alloc, out, all, requirement, b"endorse", *contract)
        }
        Requirement::Start { contract, .. } => {
            put_of_contract(alloc, out, all, requirement, b"init", *contract)
        }
        Requirement::Authorisation { output, branch, .. } => {
            put_of_branch(alloc, out, all, requirement, *output, *branch)
        }
        _ => put_requirement(alloc, out, requirement),
    }
}

#[tactic(auto, using(std::proofs::Common::append_assoc))]
fn joined_line(
    alloc: Global,
    all: &[Requirement],
    requirement: &Requirement,
) -> Result<Vec<u8>, OutOfMemory>
    ensures { IfOk result (λ text. text.items ≡ spec.joined_line all.now requirement.now) }
{
    let mut out = Vec::new(alloc);
    put_joined(alloc, &mut out, all, requirement)?;
    put(&mut out, b"\n")?;
    Ok(out)
}

// Each once, where it first stands.
fn joined_lines(alloc: Global, all: &[Requirement]) -> Result<Seq<Bytes>, OutOfMemory>
    ensures { IfOk result (λ lines. lines ≡ spec.once (map (spec.joined_line all.now) all.now)) }
{
    let mut lines = Seq::new(alloc);
    for requirement in all {
        let line = joined_line(alloc, all, requirement)?;
        add_line(&mut lines, line)?;
    }
    Ok(lines)
}

#[tactic(auto, using(std::proofs::Common::append_assoc))]
fn put_lines(out: &mut Vec<u8>, lines: &[Bytes]) -> Result<(), OutOfMemory>
    ensures { OnOk result (out.new.items ≡ out.old.items ++ flat_map (λ line. line) lines.now) }
{
    for line in lines {
        put(out, line.as_slice())?;
    }
    Ok(())
}

/// All that is missing, each line once.
pub(crate) fn put_requirements(
    alloc: Global,
    out: &mut Vec<u8>,
    requirements: &[Requirement],
) -> Result<(), OutOfMemory>
    ensures { OnOk result (out.new.items ≡ out.old.items ++ spec.requirements_text requirements.now) }
{
    let lines = joined_lines(alloc, requirements)?;
    put_lines(out, lines.as_slice())
}
