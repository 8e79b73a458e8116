//! Strings that are posted.

ghost use Rattle.std.specs.Prelude.{◌≡◌, ◌∷◌, [], None, IfOk, IfErr};
ghost use Rattle.bm_hash.specs.Trails.{StopsAlong};
ghost use Rattle.spec_run.specs.World.{World};
ghost use Rattle.spec_run.specs.Pending.{posting};
ghost use Rattle.bm_world_board.specs.Prepares.{Prepares};

use bm_hash::{Hash32, Trail, TrailError};
use bm_world_board::{Change, PendingChange};
use spec_data::{Bytes, Name, OutOfMemory, Seq};
use spec_run::Outcome;
use std::alloc::Global;

// A list of this string alone.
fn one_string(alloc: Global, string: &[u8]) -> Result<Seq<Bytes>, OutOfMemory>
    ensures { IfOk result (λ list. list ≡ string.now ∷ []) }
{
    let mut list = Seq::new(alloc);
    list.push(Bytes::from_slice(alloc, string)?)?;
    Ok(list)
}

/// The pending effect of an event that posts this string, which may be the secret of this owner and name.
#[tactic(auto, using(bm_hash::proofs::HashesLemmas::stops_late))]
pub(crate) fn pending_posting<H: Hash32 + Drop>(
    alloc: Global,
    trail: &mut Trail<H>,
    string: &[u8],
    allowed: Option<(Name, Name)>,
) -> Result<PendingChange, TrailError>
    ensures hasher { trail.new.hasher ≡ trail.old.hasher }
    ensures ok { IfOk result (λ d. (w : World) → Prepares (H.digest_of trail.old.hasher) w trail.old.messages trail.new.messages (posting w string.now allowed) d) }
    ensures err { IfErr result (StopsAlong H.digest_of trail.old trail.new (string.now ∷ [])) }
{
    trail.hash(string)?;
    let posts = one_string(alloc, string)?;
    Ok(PendingChange {
        outcome: Outcome::Done,
        posts,
        allowed,
        change: Change::Nothing,
    })
}

/// The pending effect of `post`.
pub fn pending_post<H: Hash32 + Drop>(
    alloc: Global,
    trail: &mut Trail<H>,
    string: &[u8],
) -> Result<PendingChange, TrailError>
    ensures hasher { trail.new.hasher ≡ trail.old.hasher }
    ensures ok { IfOk result (λ d. (w : World) → Prepares (H.digest_of trail.old.hasher) w trail.old.messages trail.new.messages (posting w string.now None) d) }
    ensures err { IfErr result (StopsAlong H.digest_of trail.old trail.new (string.now ∷ [])) }
{
    pending_posting(alloc, trail, string, None)
}
