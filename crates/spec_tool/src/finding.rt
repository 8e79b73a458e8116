//! What an audit finds.

ghost use Rattle.std.specs.Prelude.{◌≡◌, ℕ, List, IfOk};

use crate::which::Which;
use spec_bitcoin::{Label, Refusal};
use spec_data::{OutOfMemory, Seq};
use std::alloc::Global;

/// What the ledger says of a transaction after the run.
#[derive(Clone, Copy, Debug, PartialEq, Eq)]
pub enum Now {
    /// It is accepted as the initial transaction of this contract.
    Init(u32),
    /// It is accepted, and takes this branch of the contract output of this number.
    Branch { output: u32, branch: u32 },
    /// It is accepted, and is another one.
    Move,
    Refused(Refusal),
}

/// What a line is.
pub enum Kind {
    /// It isn't one word of hexadecimal digits.
    NotHex,
    /// It spells no transaction; so many bytes begin one.
    Bad(usize),
    /// The compiled transactions that it is without its witnesses, and what the ledger says of it.
    Read { names: Seq<Which>, now: Now },
}

impl Drop for Kind {
    fn drop(self) {
        match self {
            Kind::NotHex | Kind::Bad(_) | Kind::Read { names: _, now: _ } => {}
        }
    }
}

/// A line of the file that isn't empty, by its number, counted from 1.
pub struct Finding {
    pub line: u32,
    pub kind: Kind,
}

impl Drop for Finding {
    fn drop(self) {
        let Finding { line: _, kind: _ } = self;
    }
}

/// What an audit finds: of each line, the compiled transactions that no line names, and the
/// signatures that are missing.
pub struct AuditReport {
    pub findings: Seq<Finding>,
    pub absent: Seq<Which>,
    /// The transaction, its input, counted from 0, and the label of the key that hasn't signed there.
    pub missing: Seq<(Which, u32, Label)>,
}

impl Drop for AuditReport {
    fn drop(self) {
        let AuditReport {
            findings: _,
            absent: _,
            missing: _,
        } = self;
    }
}

impl Kind {
    /// An equal one.
    pub fn copy(&self, alloc: Global) -> Result<Kind, OutOfMemory>
        ensures { IfOk result (λ kind. kind ≡ self.now) }
    {
        match self {
            Kind::NotHex => Ok(Kind::NotHex),
            Kind::Bad(place) => Ok(Kind::Bad(*place)),
            Kind::Read { names, now } => Ok(Kind::Read {
                names: copy_names(alloc, names.as_slice())?,
                now: *now,
            }),
        }
    }
}

impl Finding {
    /// An equal finding.
    pub fn copy(&self, alloc: Global) -> Result<Finding, OutOfMemory>
        ensures { IfOk result (λ finding. finding ≡ self.now) }
    {
        Ok(Finding {
            line: self.line,
            kind: self.kind.copy(alloc)?,
        })
    }
}

impl AuditReport {
    /// An equal report.
    pub fn copy(&self, alloc: Global) -> Result<AuditReport, OutOfMemory>
        ensures { IfOk result (λ report. report ≡ self.now) }
    {
        Ok(AuditReport {
            findings: copy_findings(alloc, self.findings.as_slice())?,
            absent: copy_names(alloc, self.absent.as_slice())?,
            missing: copy_missing(alloc, self.missing.as_slice())?,
        })
    }
}

fn copy_names(alloc: Global, names: &[Which]) -> Result<Seq<Which>, OutOfMemory>
    ensures { IfOk result (λ new. new ≡ names.now) }
{
    let mut copies = Seq::new(alloc);
    for name in names {
        copies.push(name.copy(alloc)?)?;
    }
    Ok(copies)
}

fn copy_findings(alloc: Global, findings: &[Finding]) -> Result<Seq<Finding>, OutOfMemory>
    ensures { IfOk result (λ new. new ≡ findings.now) }
{
    let mut copies = Seq::new(alloc);
    for finding in findings {
        copies.push(finding.copy(alloc)?)?;
    }
    Ok(copies)
}

fn copy_missing(
    alloc: Global,
    missing: &[(Which, u32, Label)],
) -> Result<Seq<(Which, u32, Label)>, OutOfMemory>
    ensures { IfOk result (λ new. new ≡ missing.now) }
{
    let mut copies = Seq::new(alloc);
    for (which, input, label) in missing {
        copies.push((which.copy(alloc)?, *input, label.copy(alloc)?))?;
    }
    Ok(copies)
}
