//! Theorems on files: the reader gives what the tokens spell, printed adverts, events and headers read back, and a run
//! file that isn't refused is a run of which the theorems speak. Each is the contract of a function that does nothing.
#![tactic(auto)]

ghost use Rattle.theory_text.specs.RunFiles.{RunFileTheorem};
ghost use Rattle.spec_text.specs.Statements.{ReaderTheorem, PrintedAdvertTheorem, PrintedEventTheorem, PrintedHeaderTheorem};

/// What is read of a contract text is what the grammar says, and where reading stops is where the grammar stops.
pub fn reader_theorem()
    ensures { ReaderTheorem }
{}

/// The canonical text of an advert that the reader can give is read as that advert.
pub fn printed_adverts_read()
    ensures { PrintedAdvertTheorem }
{}

/// A run file that isn't refused spells a run of which the theorems on runs speak.
pub fn run_files_spell_runs()
    ensures { RunFileTheorem }
{}

/// The canonical line of an event that some line spells is read as that event.
pub fn printed_events_read()
    ensures { PrintedEventTheorem }
{}

/// The canonical lines of a header that some run file has are read as that header.
pub fn printed_headers_read()
    ensures { PrintedHeaderTheorem }
{}
