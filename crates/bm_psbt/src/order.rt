//! Keys in ascending order.

ghost use Rattle.std.specs.Prelude.{◌≡◌, ◌∷◌, ◌==◌, length, true, false, List, ℕ};
ghost use Rattle.std.specs.List.{list_all};
ghost use Rattle.spec_terms.specs.Precondition.{names_of};
ghost use Rattle.spec_tool.specs.Psbt.{is_before, are_ascending, Psbt};
ghost use Rattle.spec_tool.specs.Psbt as spec;
ghost use Rattle.theory_psbt.proofs.Kept.{signs_ascend};

use crate::reading::is_unsigned;
use spec_bitcoin::Tx;
use spec_data::Bytes;
use spec_tool::PsbtInput;
use std::cmp::Ordering;

/// A key and a signature.
pub(crate) type Signature = ([u8; 33], Bytes);

/// Whether a key comes before another.
pub(crate) fn comes_before(key: &[u8], other: &[u8]) -> bool
    ensures { result ≡ is_before key.now other.now }
{
    match key.cmp(other) {
        Ordering::Less => true,
        Ordering::Equal => false,
        Ordering::Greater => false,
    }
}

// Whether each of the keys comes before the next.
fn are_in_order(signatures: &[Signature]) -> bool
    ensures { result ≡ are_ascending (names_of signatures.now) }
{
    let Some((first, rest)) = signatures.split_first() else {
        return true;
    };
    let mut last = first.0.as_slice();
    for (key, _) in rest {
        if !comes_before(last, key) {
            return false;
        }
        last = key.as_slice();
    }
    true
}

// Whether the signatures of each input ascend by their keys.
fn all_in_order(inputs: &[PsbtInput]) -> bool
    ensures { result ≡ list_all signs_ascend inputs.now }
{
    for input in inputs {
        if !are_in_order(input.partial.as_slice()) {
            return false;
        }
    }
    true
}

/// Whether these are a transaction without scripts and witnesses, and what is known of each of its
/// inputs, of which it has one.
pub(crate) fn is_psbt(tx: &Tx, inputs: &[PsbtInput]) -> bool
    ensures { result ≡ spec.is_psbt (record { tx = tx.now; inputs = inputs.now }) }
{
    is_unsigned(tx) && inputs.len() == tx.inputs.len() && all_in_order(inputs)
}
