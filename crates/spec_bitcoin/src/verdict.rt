//! What the ledger answers to a transaction.

ghost use Rattle.std.specs.Prelude.{◌≡◌, ℕ, List, IfOk};

use spec_data::{OutOfMemory, Seq};
use std::alloc::Global;

/// Why the ledger refuses a transaction. A number is that of the input at fault, from 0.
#[derive(Clone, Copy, Debug, PartialEq, Eq)]
pub enum Refusal {
    /// There is no input.
    NoInput,
    /// There is no output.
    NoOutput,
    /// Two inputs spend the same output.
    InputRepeated,
    /// The output that this input spends isn't live.
    MissingInput(u32),
    /// An output, or the sum of the outputs, is more than there can be.
    ValueLimit,
    /// The inputs sum to less than the outputs.
    InsufficientIn,
    /// The lock binds, and isn't reached or isn't a height.
    NotFinal,
    /// The script of this input isn't empty.
    ScriptSigNotEmpty(u32),
    /// The output that this input spends doesn't pay to the hash of a script, or the input has no witness.
    NotWitnessScript(u32),
    /// The script in this input's witness isn't the one that was paid to.
    ScriptMismatch(u32),
    /// An item of this input's witness, other than the script, has more than 520 bytes.
    ItemTooLong(u32),
    /// The script of this input is false.
    ScriptFalse(u32),
}

/// The answer to a transaction: the birth numbers of what it spent and made, or why it was refused.
pub enum Verdict {
    Accepted { spent: Seq<u32>, made: Seq<u32> },
    Refused(Refusal),
}

impl Drop for Verdict {
    fn drop(self) {
        match self {
            Verdict::Accepted { spent: _, made: _ } | Verdict::Refused(_) => {}
        }
    }
}

impl Verdict {
    /// An equal verdict.
    pub fn copy(&self, alloc: Global) -> Result<Verdict, OutOfMemory>
        ensures { IfOk result (λ verdict. verdict ≡ self.now) }
    {
        match self {
            Verdict::Accepted { spent, made } => Ok(Verdict::Accepted {
                spent: spent.copy(alloc)?,
                made: made.copy(alloc)?,
            }),
            Verdict::Refused(refusal) => Ok(Verdict::Refused(*refusal)),
        }
    }
}
