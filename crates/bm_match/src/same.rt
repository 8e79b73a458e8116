//! When two transactions are the same but for their witnesses.

ghost use Rattle.std.specs.Prelude.{◌≡◌};
ghost use Rattle.std.specs.Cmp.Lexicographic.{pointwise};
ghost use Rattle.spec_run.specs.Ledger as spec;
ghost use Rattle.spec_bitcoin.specs.Live as live;

use spec_bitcoin::{OutPoint, Tx, TxIn, TxOut};

fn same_outpoint(first: &OutPoint, second: &OutPoint) -> bool
    ensures { result ≡ live.same_outpoint first.now second.now }
{
    first.txid == second.txid && first.vout == second.vout
}

fn same_input(first: &TxIn, second: &TxIn) -> bool
    ensures { result ≡ spec.same_input first.now second.now }
{
    same_outpoint(&first.prev, &second.prev)
        && first.script_sig.as_slice() == second.script_sig.as_slice()
        && first.sequence == second.sequence
}

fn same_output(first: &TxOut, second: &TxOut) -> bool
    ensures { result ≡ spec.same_output first.now second.now }
{
    first.value == second.value && first.script.as_slice() == second.script.as_slice()
}

fn same_inputs(first: &[TxIn], second: &[TxIn]) -> bool
    ensures { result ≡ pointwise spec.same_input first.now second.now }
{
    let mut rest = second;
    for input in first {
        let Some((other, others)) = rest.split_first() else {
            return false;
        };
        if !same_input(input, other) {
            return false;
        }
        rest = others;
    }
    rest.is_empty()
}

fn same_outputs(first: &[TxOut], second: &[TxOut]) -> bool
    ensures { result ≡ pointwise spec.same_output first.now second.now }
{
    let mut rest = second;
    for output in first {
        let Some((other, others)) = rest.split_first() else {
            return false;
        };
        if !same_output(output, other) {
            return false;
        }
        rest = others;
    }
    rest.is_empty()
}

/// Whether two transactions are the same but for their witnesses.
pub fn same_bare(first: &Tx, second: &Tx) -> bool
    ensures { result ≡ spec.same_bare first.now second.now }
{
    first.version == second.version
        && same_inputs(first.inputs.as_slice(), second.inputs.as_slice())
        && same_outputs(first.outputs.as_slice(), second.outputs.as_slice())
        && first.lock == second.lock
}
