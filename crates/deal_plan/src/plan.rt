//! What `plan` prints of a deal.

ghost use Rattle.std.specs.Prelude.{◌≡◌, ◌++◌, ℕ, List, codes, flat_map, true, is_some, IfOk, OnOk};
ghost use Rattle.std.specs.List.{list_all};
ghost use Rattle.spec_data.specs.Lists.{look_up};
ghost use Rattle.spec_terms.specs.Precondition.{deposits as deposits_of, names_of};
ghost use Rattle.spec_text.specs.PlanText.{script_line};
ghost use Rattle.spec_text.specs.RunText.{newline};
ghost use Rattle.spec_compiler.specs.Keyed.Compilation.{scripts as scripts_of};
ghost use Rattle.spec_deal.specs.DealText.{plan_text as text_of};
ghost use Rattle.spec_deal.specs.Needed.{needed_deposits};
ghost use Rattle.spec_deal.specs.Setting.{deal_keys, deal_instance};
ghost use Rattle.spec_deal.specs.Transactions.{transactions as transactions_of};
ghost use Rattle.deal_plan.specs.Parts as spec;

use crate::deposits::put_all;
use crate::payees::put_payees;
use crate::transactions::{put_scripts, put_transactions};
use bm_hash::Hash32;
use bm_text::put;
use bm_wellformed::Checked;
use deal_compile::CompiledDeal;
use spec_data::OutOfMemory;
use spec_deal::Deal;
use std::alloc::Global;

// The scripts, the deposits, the payees, and the transactions in order.
#[tactic(auto, using(std::proofs::Common::append_assoc))]
fn put_plan<H: Hash32>(
    alloc: Global,
    hasher: &H,
    out: &mut Vec<u8>,
    checked: &Checked,
    deal: &Deal,
    compiled: &CompiledDeal,
) -> Result<(), OutOfMemory>
    requires { list_all (λ d. is_some (look_up d.0 deal.now.deposits)) (deposits_of checked.now.pre) ≡ true }
    ensures { OnOk result (out.new.items ≡ out.old.items ++ spec.plan_by (H.digest_of hasher.now) deal.now checked.now
        compiled.now.scripts compiled.now.transactions) }
{
    put(out, b"contract 0 compiled\n")?;
    put_scripts(alloc, out, compiled.scripts.as_slice())?;
    put_all(alloc, hasher, out, checked, deal)?;
    put_payees(alloc, hasher, out, checked, deal)?;
    put_transactions(alloc, out, compiled.transactions.as_slice())
}

// The plan of a deal, by what it is compiled to.
fn plan<H: Hash32>(
    alloc: Global,
    hasher: &H,
    checked: &Checked,
    deal: &Deal,
    compiled: &CompiledDeal,
) -> Result<Vec<u8>, OutOfMemory>
    requires { list_all (λ d. is_some (look_up d.0 deal.now.deposits)) (deposits_of checked.now.pre) ≡ true }
    ensures { IfOk result (λ text. text.items ≡ spec.plan_by (H.digest_of hasher.now) deal.now checked.now
        compiled.now.scripts compiled.now.transactions) }
{
    let mut out = Vec::new(alloc);
    put_plan(alloc, hasher, &mut out, checked, deal, compiled)?;
    Ok(out)
}

/// The plan of a compiled deal: each script, each deposit with the output script that its place must have, where each party is paid, and
/// each transaction with its digests and who signs them.
pub fn plan_text<H: Hash32>(
    alloc: Global,
    hasher: &H,
    checked: &Checked,
    deal: &Deal,
    compiled: &CompiledDeal,
) -> Result<Vec<u8>, OutOfMemory>
    requires places { names_of deal.now.deposits ≡ needed_deposits checked.now }
    requires transactions { let hash = H.digest_of hasher.now in
        compiled.now.transactions ≡ transactions_of hash (deal_keys deal.now) (deal_instance checked.now deal.now) }
    requires scripts { let hash = H.digest_of hasher.now in
        compiled.now.scripts ≡ scripts_of hash (deal_keys deal.now) (deal_instance checked.now deal.now) }
    ensures { let hash = H.digest_of hasher.now in
        IfOk result (λ text. text.items ≡ text_of hash deal.now.network (deal_keys deal.now) (deal_instance checked.now deal.now)) }
{
    plan(alloc, hasher, checked, deal, compiled)
}
