//! Theorems on the texts of `plan` and `audit`: they read back as all that they tell, so equal texts mean equal
//! answers. Each is the contract of a function that does nothing.
#![tactic(auto)]

ghost use Rattle.theory_plan_text.specs.Statements.{CompilationsReadBack, PlansAreRead, SamePlansShowTheSame};
ghost use Rattle.theory_plan_text.specs.Statements.{ReportsReadBack, AuditsAreRead, SameAuditsShowTheSame};

/// The lines of a contract's scripts and transactions are read as these: the transactions
/// themselves, with their txids and the digests of their inputs.
pub fn compilations_read_back()
    ensures { CompilationsReadBack }
{}

/// What `plan` prints of any valid run file and well-formed contract is read as all that the
/// contract is compiled to, or as what is shown in its place: no script, no transaction and no
/// digest can be left out of the text.
pub fn plans_are_read()
    ensures { PlansAreRead }
{}

/// So two contracts of which `plan` prints the same are compiled to the same.
pub fn same_plans_show_the_same()
    ensures { SamePlansShowTheSame }
{}

/// The lines of an audit's findings, of what is absent and of what is missing are read as these.
pub fn reports_read_back()
    ensures { ReportsReadBack }
{}

/// What `audit` prints of any file after a valid run file with a well-formed contract is read as
/// what it finds in each line, what is absent and what is missing, or as what is shown in its place:
/// no finding and no missing signature can be left out of the text.
pub fn audits_are_read()
    ensures { AuditsAreRead }
{}

/// So two audits that print the same find the same.
pub fn same_audits_show_the_same()
    ensures { SameAuditsShowTheSame }
{}
