//! Several messages along a trail.

ghost use Rattle.bm_hash.specs.Trails.{Hashes};

use crate::hashing::Hash32;
use crate::messages::{Trail, TrailError};
use spec_data::Bytes;

/// Hashes these messages in turn.
#[tactic(auto, using(crate::proofs::HashesLemmas::hashing_loop, crate::proofs::HashesLemmas::stopping))]
pub fn hash_all<H: Hash32 + Drop>(
    trail: &mut Trail<H>,
    messages: &[Bytes],
) -> Result<(), TrailError>
    ensures { Hashes H.digest_of trail.old trail.new messages.now result }
{
    if trail.has_collided() {
        return Err(TrailError::Collided);
    }
    for message in messages {
        trail.hash(message.as_slice())?;
    }
    Ok(())
}
