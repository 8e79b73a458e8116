//! Which of a contract's transactions no finding names.

ghost use Rattle.std.specs.Prelude.{◌≡◌, IfOk, OnOk, ◌++◌, ◌∷◌, [], if◌then◌else◌};
ghost use Rattle.std.specs.List.{list_any};
ghost use Rattle.spec_tool.specs.Listed.{same_which};
ghost use Rattle.spec_tool.specs.Audit as audit;
ghost use Rattle.bm_audit_listed.specs.Parts.{absent_among};

use crate::entries::Candidate;
use spec_data::{OutOfMemory, Seq};
use spec_tool::{Finding, Kind, Which};
use std::alloc::Global;

fn same_which(which: &Which, other: &Which) -> bool
    ensures { result ≡ same_which which.now other.now }
{
    match (which, other) {
        (Which::Init, Which::Init) => true,
        (Which::At(path), Which::At(other)) => *path == *other,
        _ => false,
    }
}

// Whether it is one of these names.
fn is_among(which: &Which, names: &[Which]) -> bool
    ensures { result ≡ list_any (same_which which.now) names.now }
{
    for name in names {
        if same_which(which, name) {
            return true;
        }
    }
    false
}

// The names that a finding has.
fn names_in(finding: &Finding) -> &[Which]
    ensures { result.now ≡ audit.names_in finding.now }
{
    match &finding.kind {
        Kind::NotHex => &[],
        Kind::Bad(_) => &[],
        Kind::Read { names, .. } => names.as_slice(),
    }
}

// Whether a finding names it.
fn is_named(findings: &[Finding], which: &Which) -> bool
    ensures { result ≡ audit.is_named findings.now which.now }
{
    for finding in findings {
        if is_among(which, names_in(finding)) {
            return true;
        }
    }
    false
}

// Adds the name, where no finding has it.
fn put_absent(
    alloc: Global,
    findings: &[Finding],
    which: &Which,
    absent: &mut Seq<Which>,
) -> Result<(), OutOfMemory>
    ensures { OnOk result (absent.new ≡ absent.old ++ (if audit.is_named findings.now which.now then [] else which.now ∷ [])) }
{
    if is_named(findings, which) {
        return Ok(());
    }
    absent.push(which.copy(alloc)?)?;
    Ok(())
}

/// The names of the transactions that no finding has, in their order.
pub fn absent(
    alloc: Global,
    candidates: &[Candidate],
    findings: &[Finding],
) -> Result<Seq<Which>, OutOfMemory>
    ensures { IfOk result (λ names. names ≡ absent_among candidates.now findings.now) }
{
    let mut absent = Seq::new(alloc);
    for candidate in candidates {
        put_absent(alloc, findings, &candidate.which, &mut absent)?;
    }
    Ok(absent)
}
