//! `audit` answers which transactions of a file are a contract's, what the ledger would say of them now, and which
//! signatures are missing. This crate finds that after a run and writes the report.
#![tactic(auto)]

mod finding_text;
mod findings;
mod judging;
mod lines;
mod list_text;
mod name_text;
mod report;
mod report_lines;

pub use report::audit;
pub use report_lines::report_text;
pub use spec_tool::{AuditReport, Finding, Kind, Now, Which};
