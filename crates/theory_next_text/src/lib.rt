//! Theorems on the lines of `bitml next`: they read back as all that they tell. Each is the contract of a function that does
//! nothing.
#![tactic(auto)]

ghost use Rattle.theory_next_text.specs.Statements.{OutlooksReadBack, SameOutlooksTellTheSame, NextIsReadBack};

/// The lines of what may come next are read as exactly this, in order: the height, each contract, each event that is listed
/// with what it would come to and what its branch makes, what is missing, each once, and on whom it waits. Numbers are within
/// eight bytes, and names are such as contract text may have.
pub fn outlooks_read_back()
    ensures { OutlooksReadBack }
{}

/// So two of which the same text is printed tell the same.
pub fn same_outlooks_tell_the_same()
    ensures { SameOutlooksTellTheSame }
{}

/// What `bitml next` tells in lines after a run is read so by those whom the run declares.
pub fn next_is_read_back()
    ensures { NextIsReadBack }
{}
