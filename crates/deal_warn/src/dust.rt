//! What an output must be worth.

ghost use Rattle.std.specs.Prelude.{◌≡◌, if◌then◌else◌, IfOk};
ghost use Rattle.spec_address.specs.Address.{is_witness_output};
ghost use Rattle.spec_deal.specs.WarnText as spec;

use bm_plan::narrow;
use deal_address::is_witness_output;
use spec_data::OutOfMemory;

// How many bytes the input has at least that spends the output of a script, by the rule for dust.
fn input_size(script: &[u8]) -> u64
    ensures { result ≡ (if is_witness_output script.now then 67 else 148) }
{
    if is_witness_output(script) { 67 } else { 148 }
}

/// What it costs to make and to spend the output of a script, at 3 satoshi a byte.
pub(crate) fn least_value(script: &[u8]) -> Result<u64, OutOfMemory>
    ensures { IfOk result (λ value. value ≡ spec.least_value script.now) }
{
    let size = narrow(script.len())?;
    Ok(3 * (9 + size as u64 + input_size(script)))
}
