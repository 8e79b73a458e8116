//! The scripts of the deposits of the participants whose keys are used.

ghost use Rattle.std.specs.Prelude.{◌≡◌, [], ◌∷◌, map, filter, None, IfOk};
ghost use Rattle.bm_hash.specs.Messages.{evidence_of};
ghost use Rattle.bm_hash.specs.Trails.{Hashes};
ghost use Rattle.spec_terms.specs.Parties.{participants};
ghost use Rattle.spec_terms.specs.Precondition.{names_of};
ghost use Rattle.spec_compiler.specs.Keyed.Transactions.{party_script as script_of};
ghost use Rattle.spec_deal.specs.Used.{choice_paid, uses_key as uses_key_of};
ghost use Rattle.deal_compile.specs.Keyed.{held_of, keys_of};

use crate::keys::DealKeys;
use bm_compile::KeySource;
use bm_hash::{Hash32, Trail, TrailError};
use bm_keys::deposit_script;
use bm_wellformed::Checked;
use deal_payees::{all_paid, brought_names, uses_key};
use spec_data::{Name, OutOfMemory};
use spec_deal::Deal;
use std::alloc::Global;

// Whether the script of the party's key of its deposits stands in an output. `paid` are the parties of all withdraws, `brought`
// the deposits that wallets bring.
fn is_user(
    keys: &DealKeys,
    checked: &Checked,
    paid: &[Name],
    brought: &[Name],
    party: &Name,
) -> bool
    requires paid { paid.now ≡ choice_paid checked.now.root }
    requires brought { brought.now ≡ names_of keys.now.own.deposits }
    ensures { result ≡ uses_key_of (keys_of keys.now) checked.now party.now }
{
    let has_payee = keys.own_payee(party.bytes()).is_some();
    uses_key(checked, paid, brought, has_payee, party)
}

// Those of these parties.
fn users_among(
    alloc: Global,
    keys: &DealKeys,
    checked: &Checked,
    paid: &[Name],
    brought: &[Name],
    parties: &[Name],
) -> Result<Vec<Name>, OutOfMemory>
    requires paid { paid.now ≡ choice_paid checked.now.root }
    requires brought { brought.now ≡ names_of keys.now.own.deposits }
    ensures { IfOk result (λ users. users.items ≡ filter (uses_key_of (keys_of keys.now) checked.now) parties.now) }
{
    let mut users = Vec::new(alloc);
    for party in parties {
        if is_user(keys, checked, paid, brought, party) {
            users.push(*party)?;
        }
    }
    Ok(users)
}

/// The participants whose keys of their deposits a deal uses, in order.
pub(crate) fn users(
    alloc: Global,
    keys: &DealKeys,
    checked: &Checked,
    deal: &Deal,
) -> Result<Vec<Name>, OutOfMemory>
    requires { keys.now ≡ held_of deal.now }
    ensures { IfOk result (λ users. users.items ≡ filter (uses_key_of (keys_of keys.now) checked.now) (participants checked.now)) }
{
    let paid = all_paid(alloc, checked)?;
    let brought = brought_names(alloc, deal.wallets.as_slice())?;
    users_among(alloc, keys, checked, &paid, &brought, checked.parties())
}

/// The script of a party's deposits: the descriptor `wsh(pk(KEY))` pays to its hash.
pub(crate) fn party_script(
    alloc: Global,
    keys: &DealKeys,
    party: &[u8],
) -> Result<[u8; 35], OutOfMemory>
    ensures { IfOk result (λ script. script ≡ script_of (λ m. m) (keys_of keys.now) party.now) }
{
    let key = keys.party_key(alloc, party)?;
    Ok(deposit_script(&key))
}

// Hashes the script of a party's deposits.
#[tactic(auto, using(bm_hash::proofs::HashesLemmas::stops_early))]
fn hash_script<H: Hash32 + Drop>(
    alloc: Global,
    trail: &mut Trail<H>,
    keys: &DealKeys,
    party: &Name,
) -> Result<(), TrailError>
    requires clear { evidence_of (H.digest_of trail.old.hasher) trail.old.messages ≡ None }
    ensures { Hashes H.digest_of trail.old trail.new
        (script_of (H.digest_of trail.old.hasher) (keys_of keys.now) party.now ∷ []) result }
{
    let script = party_script(alloc, keys, party.bytes())?;
    trail.hash(&script)?;
    Ok(())
}

/// Hashes the script of the deposits of each of these parties, in order.
#[tactic(auto, using(bm_hash::proofs::HashesLemmas::hashed_none))]
pub(crate) fn hash_scripts<H: Hash32 + Drop>(
    alloc: Global,
    trail: &mut Trail<H>,
    keys: &DealKeys,
    parties: &[Name],
) -> Result<(), TrailError>
    requires clear { evidence_of (H.digest_of trail.old.hasher) trail.old.messages ≡ None }
    ensures { Hashes H.digest_of trail.old trail.new
        (map (script_of (H.digest_of trail.old.hasher) (keys_of keys.now)) parties.now) result }
{
    for party in parties {
        hash_script(alloc, trail, keys, party)?;
    }
    Ok(())
}
