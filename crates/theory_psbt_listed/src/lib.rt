//! Theorems on the transactions that `psbt` writes in a run: each can be written, and reads back as itself. Each is the
//! contract of a function that does nothing.
#![tactic(auto)]

ghost use Rattle.theory_psbt_listed.specs.InRuns.{ListedFitInRuns, ListedReadInRuns};

/// At every world of a run, each transaction that a compiled contract lists is one whose partially
/// signed transaction can be written: its numbers are within their widths, the scripts that it
/// spends are bytes, and the keys of each input's signers are different.
pub fn listed_fit_in_runs()
    ensures { ListedFitInRuns }
{}

/// What `psbt RUN CONTRACT WHICH` prints of such a transaction, at every world of a run, is a file
/// that `psbt FILE` reads as that very partially signed transaction, and never refuses.
pub fn listed_read_in_runs()
    ensures { ListedReadInRuns }
{}
