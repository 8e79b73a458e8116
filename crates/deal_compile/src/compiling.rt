//! A deal compiled.

ghost use Rattle.std.specs.Prelude.{◌≡◌, map, filter, None, true, is_some, IfOk};
ghost use Rattle.std.specs.List.{list_all};
ghost use Rattle.spec_data.specs.Lists.{look_up};
ghost use Rattle.spec_terms.specs.Precondition.{deposits, names_of};
ghost use Rattle.bm_hash.specs.Messages.{evidence_of};
ghost use Rattle.bm_hash.specs.Trails.{Hashes};
ghost use Rattle.spec_compiler.specs.Keyed.Compilation.{scripts as scripts_of};
ghost use Rattle.spec_compiler.specs.Keyed.Hashed.{compiled_strings};
ghost use Rattle.spec_compiler.specs.Keyed.Instance.{people};
ghost use Rattle.spec_compiler.specs.Keyed.Transactions.{party_script};
ghost use Rattle.spec_deal.specs.Hashed.{deal_strings};
ghost use Rattle.spec_deal.specs.declared.deal.Deal.{Deal as Given};
ghost use Rattle.spec_deal.specs.Needed.{needed_deposits};
ghost use Rattle.spec_deal.specs.Setting.{deal_keys, deal_instance};
ghost use Rattle.spec_deal.specs.Transactions.{transactions as transactions_of};
ghost use Rattle.spec_deal.specs.Used.{uses_key};
ghost use Rattle.bm_compile.specs.Keyed.Detailed.{details as details_of};
ghost use Rattle.deal_compile.specs.Keyed.{held_of};
ghost use Rattle.deal_compile.specs.Signable.{is_signable};

use crate::depositing::{hash_scripts, users};
use crate::keys::DealKeys;
use crate::seen::is_well_formed;
use crate::transactions::transactions;
use bm_compile::{Details, compile_details};
use bm_hash::{Hash32, Trail, TrailError};
use bm_syntax::Path;
use bm_wellformed::Checked;
use spec_data::{Bytes, OutOfMemory, Seq};
use spec_deal::{Deal, Transaction};
use std::alloc::Global;

/// The transactions of a deal, the initial one and then those of the paths in the order of the text, and the witness script
/// (BIP 141) of each position, in the order of the text.
pub struct CompiledDeal {
    pub transactions: Seq<Transaction>,
    pub scripts: Seq<(Path, Bytes)>,
}

impl Drop for CompiledDeal {
    fn drop(self) {
        let CompiledDeal {
            transactions: _,
            scripts: _,
        } = self;
    }
}

// The deposit scripts of the participants whose keys are used are hashed.
#[tactic(auto, using(bm_hash::proofs::HashesLemmas::stops_early))]
fn hash_deposits<H: Hash32 + Drop>(
    alloc: Global,
    trail: &mut Trail<H>,
    keys: &DealKeys,
    checked: &Checked,
    deal: &Deal,
) -> Result<(), TrailError>
    requires clear { evidence_of (H.digest_of trail.old.hasher) trail.old.messages ≡ None }
    requires keys { keys.now ≡ held_of deal.now }
    ensures { let hash = H.digest_of trail.old.hasher in
        let keys = deal_keys deal.now in
        let scripts = map (party_script hash keys) (filter (uses_key keys checked.now) (people (deal_instance checked.now deal.now))) in
        Hashes H.digest_of trail.old trail.new scripts result }
{
    let users = users(alloc, keys, checked, deal)?;
    hash_scripts(alloc, trail, keys, &users)
}

// The strings of the compiled contract are hashed.
fn compile_checked<H: Hash32 + Drop>(
    alloc: Global,
    trail: &mut Trail<H>,
    keys: &DealKeys,
    checked: &Checked,
    deal: &Deal,
) -> Result<Details, TrailError>
    requires keys { keys.now ≡ held_of deal.now }
    requires bound { list_all (λ d. is_some (look_up d.0 deal.now.deposits)) (deposits checked.now.pre) ≡ true }
    ensures details { let hash = H.digest_of trail.old.hasher in
        IfOk result (λ d. d ≡ details_of hash (deal_keys deal.now) (deal_instance checked.now deal.now)) }
    ensures trail { let hash = H.digest_of trail.old.hasher in
        Hashes H.digest_of trail.old trail.new (compiled_strings hash (deal_keys deal.now) (deal_instance checked.now deal.now)) result }
{
    let deposits = deal.deposits.as_slice();
    compile_details(
        alloc,
        trail,
        keys,
        0,
        checked,
        deposits,
        deal.hashes.as_slice(),
    )
}

// The deposit scripts of those whose keys are used are hashed, and then the strings of the compiled contract.
fn details<H: Hash32 + Drop>(
    alloc: Global,
    trail: &mut Trail<H>,
    keys: &DealKeys,
    checked: &Checked,
    deal: &Deal,
) -> Result<Details, TrailError>
    requires clear { evidence_of (H.digest_of trail.old.hasher) trail.old.messages ≡ None }
    requires keys { keys.now ≡ held_of deal.now }
    requires bound { list_all (λ d. is_some (look_up d.0 deal.now.deposits)) (deposits checked.now.pre) ≡ true }
    ensures details { let hash = H.digest_of trail.old.hasher in
        IfOk result (λ d. d ≡ details_of hash (deal_keys deal.now) (deal_instance checked.now deal.now)) }
    ensures trail { let hash = H.digest_of trail.old.hasher in
        Hashes H.digest_of trail.old trail.new (deal_strings hash (deal_keys deal.now) (deal_instance checked.now deal.now)) result }
{
    hash_deposits(alloc, trail, keys, checked, deal)?;
    let details = compile_checked(alloc, trail, keys, checked, deal)?;
    Ok(details)
}

// What was compiled, with all that is asked of it.
fn gather<H: Hash32>(
    alloc: Global,
    hasher: &H,
    keys: &DealKeys,
    checked: &Checked,
    details: Details,
) -> Result<CompiledDeal, OutOfMemory>
    ensures transactions { let hash = H.digest_of hasher.now in
        (deal : Given) → keys.now ≡ held_of deal → details ≡ details_of hash (deal_keys deal) (deal_instance checked.now deal)
        → IfOk result (λ c. c.transactions ≡ transactions_of hash (deal_keys deal) (deal_instance checked.now deal)) }
    ensures scripts { IfOk result (λ c. c.scripts ≡ details.scripts) }
{
    let transactions = transactions(alloc, hasher, keys, checked, &details)?;
    let (_, _, scripts) = details.into_parts();
    Ok(CompiledDeal {
        transactions,
        scripts,
    })
}

/// A checked contract compiled at the keys, places, hashes and scripts of a deal, as contract 0. It hashes the deposit scripts of
/// the participants whose keys are used, the scripts by position, and the strings of the initial transaction and of each path's, in the
/// order of the text. Each transaction can be given to signers.
#[tactic(auto, using(bm_hash::proofs::HashesLemmas::stopping, bm_hash::proofs::HashesLemmas::stops_late))]
pub fn compile_deal<H: Hash32 + Drop>(
    alloc: Global,
    trail: &mut Trail<H>,
    checked: &Checked,
    deal: &Deal,
) -> Result<CompiledDeal, TrailError>
    requires places { names_of deal.now.deposits ≡ needed_deposits checked.now }
    ensures transactions { let hash = H.digest_of trail.old.hasher in
        IfOk result (λ c. c.transactions ≡ transactions_of hash (deal_keys deal.now) (deal_instance checked.now deal.now)) }
    ensures signable { IfOk result (λ c. list_all is_signable c.transactions ≡ true) }
    ensures scripts { let hash = H.digest_of trail.old.hasher in
        IfOk result (λ c. c.scripts ≡ scripts_of hash (deal_keys deal.now) (deal_instance checked.now deal.now)) }
    ensures trail { let hash = H.digest_of trail.old.hasher in
        Hashes H.digest_of trail.old trail.new (deal_strings hash (deal_keys deal.now) (deal_instance checked.now deal.now)) result }
{
    is_well_formed(checked);
    if trail.has_collided() {
        return Err(TrailError::Collided);
    }
    let keys = DealKeys::of(alloc, deal)?;
    let made = details(alloc, trail, &keys, checked, deal)?;
    let compiled = gather(alloc, trail.hasher(), &keys, checked, made)?;
    Ok(compiled)
}
