//! Theorems on audits: findings, absent transactions and missing signatures are exactly those that there are. Each is
//! the contract of a function that does nothing.
#![tactic(auto)]

ghost use Rattle.theory_audit.specs.Audited.{AuditsFindAll};
ghost use Rattle.theory_audit.specs.Nothing.{NothingLacks};

/// An audit has a finding for each line that isn't empty, in order, which says what the line is;
/// absent are the compiled transactions that no line names, and missing the needed signatures that
/// aren't in the book, none left out and none added; and it halts where two different strings of the
/// run and of the transactions that it judges have one digest.
pub fn audits_find_all()
    ensures { AuditsFindAll }
{}

/// An audit of all compiled transactions finds nothing absent, and a contract of which nothing is
/// missing is endorsed.
pub fn nothing_lacks()
    ensures { NothingLacks }
{}
