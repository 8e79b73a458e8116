//! Transactions and witnesses that are the same.

ghost use Rattle.std.specs.Prelude.{◌≡◌};
ghost use Rattle.std.specs.Cmp.Lexicographic.{pointwise};
ghost use Rattle.std.specs.Str.{bytes_eq};
ghost use Rattle.spec_bitcoin.specs.Live as live;
ghost use Rattle.spec_run.specs.Ledger as spec;

use spec_bitcoin::{OutPoint, Tx, TxIn, TxOut};
use spec_data::Bytes;

/// Whether two byte strings are the same.
pub(crate) fn same_bytes(one: &Bytes, other: &Bytes) -> bool
    ensures { result ≡ bytes_eq one.now other.now }
{
    one.as_slice() == other.as_slice()
}

fn same_outpoint(one: &OutPoint, other: &OutPoint) -> bool
    ensures { result ≡ live.same_outpoint one.now other.now }
{
    one.txid == other.txid && one.vout == other.vout
}

fn same_input(one: &TxIn, other: &TxIn) -> bool
    ensures { result ≡ spec.same_input one.now other.now }
{
    same_outpoint(&one.prev, &other.prev)
        && same_bytes(&one.script_sig, &other.script_sig)
        && one.sequence == other.sequence
}

/// Whether two outputs are the same.
pub(crate) fn same_output(one: &TxOut, other: &TxOut) -> bool
    ensures { result ≡ spec.same_output one.now other.now }
{
    one.value == other.value && same_bytes(&one.script, &other.script)
}

fn same_inputs(inputs: &[TxIn], others: &[TxIn]) -> bool
    ensures { result ≡ pointwise spec.same_input inputs.now others.now }
{
    let mut rest = others;
    for input in inputs {
        let Some((other, after)) = rest.split_first() else {
            return false;
        };
        if !same_input(input, other) {
            return false;
        }
        rest = after;
    }
    rest.is_empty()
}

fn same_outputs(outputs: &[TxOut], others: &[TxOut]) -> bool
    ensures { result ≡ pointwise spec.same_output outputs.now others.now }
{
    let mut rest = others;
    for output in outputs {
        let Some((other, after)) = rest.split_first() else {
            return false;
        };
        if !same_output(output, other) {
            return false;
        }
        rest = after;
    }
    rest.is_empty()
}

/// Whether two lists of byte strings are the same.
pub(crate) fn same_items(items: &[Bytes], others: &[Bytes]) -> bool
    ensures { result ≡ pointwise bytes_eq items.now others.now }
{
    let mut rest = others;
    for item in items {
        let Some((other, after)) = rest.split_first() else {
            return false;
        };
        if !same_bytes(item, other) {
            return false;
        }
        rest = after;
    }
    rest.is_empty()
}

/// Whether two transactions are the same but for their witnesses.
pub(crate) fn same_bare(one: &Tx, other: &Tx) -> bool
    ensures { result ≡ spec.same_bare one.now other.now }
{
    one.version == other.version
        && same_inputs(one.inputs.as_slice(), other.inputs.as_slice())
        && same_outputs(one.outputs.as_slice(), other.outputs.as_slice())
        && one.lock == other.lock
}
