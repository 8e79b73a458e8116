//! What holds of partially signed transactions for every way to give a key to each label.

ghost use Rattle.theory_psbt.specs.Keyed.Listed.{SignersForEach};

/// A contract's transaction has signers for each of its inputs.
pub fn signers_for_each()
    ensures { SignersForEach }
{}
