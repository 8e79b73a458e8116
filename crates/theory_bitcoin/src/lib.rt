//! Theorems on the bytes of transactions and labels: bytes spell at most one, reading finds it, and what is hashed
//! fixes it. Each is the contract of a function that does nothing.
#![tactic(auto)]

ghost use Rattle.spec_bitcoin.specs.Statements.{OneTransaction, NoSpellingBegins, SpelledIsRead, ReadIsSpelled, FaultIsFirst, OneLabel};
ghost use Rattle.theory_bitcoin.specs.Apart.{StrippedOnce, InputlessApart, PreimageOnce, PlacesOnce, OutputsOnce};

/// Bytes spell at most one transaction.
pub fn one_transaction()
    ensures { OneTransaction }
{}

/// No spelling is a proper prefix of another.
pub fn no_spelling_begins()
    ensures { NoSpellingBegins }
{}

/// What is spelled is read.
pub fn spelled_is_read()
    ensures { SpelledIsRead }
{}

/// What is read is spelled.
pub fn read_is_spelled()
    ensures { ReadIsSpelled }
{}

/// Where nothing is read, the place is the end of the longest prefix that begins a spelling.
pub fn fault_is_first()
    ensures { FaultIsFirst }
{}

/// No two labels have one text.
pub fn one_label()
    ensures { OneLabel }
{}

/// The bytes that the txid is of tell a transaction, but for its witnesses.
pub fn stripped_once()
    ensures { StrippedOnce }
{}

/// They tell one without inputs from one with inputs.
pub fn inputless_apart()
    ensures { InputlessApart }
{}

/// The bytes that a digest is of tell what is signed.
pub fn preimage_once()
    ensures { PreimageOnce }
{}

/// The list of places in a digest tells the places.
pub fn places_once()
    ensures { PlacesOnce }
{}

/// The list of outputs in a digest tells the outputs.
pub fn outputs_once()
    ensures { OutputsOnce }
{}
