//! Theorems on `make`: the generated contract is well-formed, and the generated run is one of which the theorems on
//! runs speak. Each is the contract of a function that does nothing.
#![tactic(auto)]

ghost use Rattle.theory_generator.specs.Generated.{GeneratedContractsRead, GeneratedContractsTaken};
ghost use Rattle.theory_generator.specs.GeneratedRuns.{GeneratedRunsTaken, GeneratedRunsPlay, GeneratedTextsPlayed};

/// The contract that is made from a number is within the limits of the reader, and read again from its canonical text.
pub fn generated_contracts_are_read()
    ensures { GeneratedContractsRead }
{}

/// The contract that is made from a number is well-formed, and its canonical text is taken as it.
pub fn generated_contracts_are_taken()
    ensures { GeneratedContractsTaken }
{}

/// The text of the run that is made from a number is valid and spells that run.
pub fn generated_runs_are_taken()
    ensures { GeneratedRunsTaken }
{}

/// The generated run, with the generated contract, is one of which the theorems on runs speak.
pub fn generated_runs_are_runs()
    ensures { GeneratedRunsPlay }
{}

/// What `play` answers to the texts of the generated run and the generated contract is that of the run that `make` plays.
pub fn generated_texts_are_played()
    ensures { GeneratedTextsPlayed }
{}
