//! What an error of the trail halts, by what the trail shows.

ghost use Rattle.std.specs.Prelude.{◌≡◌, ℕ, List, Some, IfOk};
ghost use Rattle.bm_hash.specs.Messages.{evidence_of};
ghost use Rattle.bm_hash.specs.declared.messages.TrailError.TheVariants as errors;
ghost use Rattle.bm_world.specs.declared.halt.Halt.TheVariants.{Collided, Guessed, Memory};

use crate::halt::Halt;
use bm_hash::{Hash32, Trail, TrailError};
use spec_data::{Bytes, OutOfMemory};
use std::alloc::Global;

// The two messages of the trail's first collision, copied.
fn evidence_of_trail<H: Hash32 + Drop>(
    alloc: Global,
    trail: &Trail<H>,
) -> Result<Option<(Bytes, Bytes)>, OutOfMemory>
    ensures { IfOk result (λ pair. pair ≡ evidence_of (H.digest_of trail.now.hasher) trail.now.messages) }
{
    match trail.evidence() {
        Some((earlier, later)) => {
            let earlier = Bytes::from_slice(alloc, earlier)?;
            let later = Bytes::from_slice(alloc, later)?;
            Ok(Some((earlier, later)))
        }
        None => Ok(None),
    }
}

/// What halts a run by an error of its trail: the two messages that the trail shows, or out of memory.
pub(crate) fn trail_halt<H: Hash32 + Drop>(
    alloc: Global,
    trail: &Trail<H>,
    error: TrailError,
) -> Halt
    ensures memory { error ≡ errors.Memory → result ≡ Memory }
    ensures collided { (earlier later : List ℕ) → result ≡ Collided earlier later
        → evidence_of (H.digest_of trail.now.hasher) trail.now.messages ≡ Some (earlier, later) }
    ensures unguessed { (party secret : List ℕ) → result ≡ Guessed party secret → ⊥ }
{
    match error {
        TrailError::Memory => Halt::Memory,
        TrailError::Collided => match evidence_of_trail(alloc, trail) {
            Ok(Some((earlier, later))) => Halt::Collided(earlier, later),
            _ => Halt::Memory,
        },
    }
}
