//! The outputs of a contract's positions.

ghost use Rattle.std.specs.Prelude.{◌≡◌, option_map};
ghost use Rattle.spec_tool.specs.Weights as weights;
ghost use Rattle.bm_psbt_plan.specs.Parts as spec;

use bm_compile::{Compiled, Prepared};
use spec_bitcoin::TxOut;
use spec_terms::{Path, PathStep};

// An output of a transaction.
fn output_of(prepared: Option<&Prepared>, number: usize) -> Option<&TxOut>
    ensures { option_map (λ o. o.now) result ≡ spec.output_of (option_map (λ p. p.now) prepared.entry) number }
{
    match prepared {
        None => None,
        Some(prepared) => prepared.tx.outputs.as_slice().get(number),
    }
}

/// The output at a position, whose prefix is given with it.
pub(crate) fn output_at<'a>(
    compiled: &'a Compiled,
    position: &Path,
    prefix: &Path,
) -> Option<&'a TxOut>
    requires { prefix.now ≡ weights.position_of position.now }
    ensures { option_map (λ o. o.now) result ≡ spec.output_at position.now compiled.now }
{
    match position.steps().last() {
        None => output_of(Some(compiled.init()), 0),
        Some(PathStep::Branch(_)) => output_of(compiled.transaction_at(position), 0),
        Some(PathStep::Part(part)) => output_of(compiled.transaction_at(prefix), *part as usize),
    }
}
