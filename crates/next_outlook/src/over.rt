//! Whether a contract is over.

ghost use Rattle.std.specs.Prelude.{◌≡◌, ◌==◌};
ghost use Rattle.std.specs.List.{list_any};
ghost use Rattle.spec_next.specs.Prospects as spec;

use bm_calculus::Config;
use bm_hash::Hash32;
use bm_world::World;

// Whether it has money in an output.
fn is_active(config: &Config, contract: u32) -> bool
    ensures { result ≡ list_any (λ a. a.contract == contract) config.now.active }
{
    config
        .active()
        .iter()
        .any(|active| active.contract == contract)
}

/// Whether it has begun, and all its money is gone.
pub(crate) fn is_over<H: Hash32 + Drop>(world: &World<H>, config: &Config, contract: u32) -> bool
    ensures { result ≡ spec.is_over config.now world.now.world contract }
{
    let active = is_active(config, contract);
    world.board().has_begun(contract) && !active
}
