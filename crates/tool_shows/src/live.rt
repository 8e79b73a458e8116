//! The live outputs at the end of a run.

ghost use Rattle.std.specs.Prelude.{◌≡◌, map, IfOk};
ghost use Rattle.tool_shows.specs.Live.{number_and_value};

use bm_ledger::Ledger;
use spec_data::OutOfMemory;
use std::alloc::Global;

/// The live outputs in order of birth: their numbers, and their values in satoshi.
pub fn live_outputs(alloc: Global, ledger: &Ledger) -> Result<Vec<(u32, u64)>, OutOfMemory>
    ensures { IfOk result (λ live. live.items ≡ map number_and_value ledger.now.live) }
{
    let mut live = Vec::new(alloc);
    while let Some((number, output)) = ledger.live_at(live.len()) {
        live.push((number, output.value))?;
    }
    Ok(live)
}
