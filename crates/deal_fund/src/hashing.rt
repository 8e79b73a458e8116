//! The scripts that are hashed for what is shown.

ghost use Rattle.std.specs.Prelude.{◌≡◌, flat_map, None};
ghost use Rattle.bm_hash.specs.Messages.{evidence_of};
ghost use Rattle.bm_hash.specs.Trails.{Hashes};
ghost use Rattle.spec_deal.specs.FundText as spec;
ghost use Rattle.deal_fund.specs.Told.{key_strings};

use bm_hash::{Hash32, Trail, TrailError};
use bm_keys::deposit_script;
use bm_wellformed::Checked;
use deal_file::Part;
use spec_data::Name;
use std::alloc::Global;

// Hashes the script of a party's deposits, where its key is given.
#[tactic(auto, using(bm_hash::proofs::HashesLemmas::hashed_none, bm_hash::proofs::HashesLemmas::stops_early))]
fn hash_key<H: Hash32 + Drop>(
    alloc: Global,
    trail: &mut Trail<H>,
    part: &Part,
    party: &Name,
) -> Result<(), TrailError>
    requires clear { evidence_of (H.digest_of trail.old.hasher) trail.old.messages ≡ None }
    ensures { Hashes H.digest_of trail.old trail.new (key_strings part.now party.now) result }
{
    if let Some(key) = part.key_of(alloc, party)? {
        trail.hash(&deposit_script(&key))?;
    }
    Ok(())
}

// Those of these parties, in order.
#[tactic(auto, using(bm_hash::proofs::HashesLemmas::hashed_none))]
fn hash_keys<H: Hash32 + Drop>(
    alloc: Global,
    trail: &mut Trail<H>,
    part: &Part,
    parties: &[Name],
) -> Result<(), TrailError>
    requires clear { evidence_of (H.digest_of trail.old.hasher) trail.old.messages ≡ None }
    ensures { Hashes H.digest_of trail.old trail.new (flat_map (key_strings part.now) parties.now) result }
{
    for party in parties {
        hash_key(alloc, trail, part, party)?;
    }
    Ok(())
}

/// Hashes the scripts of the deposits' keys that are used and given, in the order of the participants.
#[tactic(auto, using(bm_hash::proofs::HashesLemmas::stops_early))]
pub fn hash_known<H: Hash32 + Drop>(
    alloc: Global,
    trail: &mut Trail<H>,
    checked: &Checked,
    part: &Part,
) -> Result<(), TrailError>
    requires clear { evidence_of (H.digest_of trail.old.hasher) trail.old.messages ≡ None }
    ensures { Hashes H.digest_of trail.old trail.new (spec.fund_strings checked.now part.now) result }
{
    let parties = part.key_users(alloc, checked)?;
    hash_keys(alloc, trail, part, &parties)
}
