//! What `show` prints.

ghost use Rattle.std.specs.Prelude.{◌≡◌, ◌≤◌, true, false, Some, is_some, IfOk};
ghost use Rattle.std.specs.List.{list_all};
ghost use Rattle.serde_json.specs.Data.{depth};
ghost use Rattle.serde_json.specs.Read.{max_depth, read};
ghost use Rattle.serde_json.specs.View.{view};
ghost use Rattle.serde_json.specs.Written.{has_float, compact_text};
ghost use Rattle.spec_data.specs.Lists.{look_up};
ghost use Rattle.spec_terms.specs.Precondition.{deposits as deposits_of, names_of};
ghost use Rattle.spec_deal.specs.Needed.{needed_deposits};
ghost use Rattle.spec_deal.specs.Setting.{deal_keys, deal_instance};
ghost use Rattle.spec_deal.specs.Transactions.{transactions as transactions_of};
ghost use Rattle.spec_json.specs.Values.{json_line};
ghost use Rattle.spec_show.specs.ShowText.{show_text as text_of};
ghost use Rattle.spec_show.specs.ShownDeal.{deal_data};
ghost use Rattle.deal_show.specs.Showing as spec;

use crate::deal::deal_value;
use bm_hash::Hash32;
use bm_wellformed::Checked;
use deal_compile::CompiledDeal;
use serde_json::Value;
use spec_data::OutOfMemory;
use spec_deal::Deal;
use std::alloc::Global;

// A value without floats on a line of its own, which is read back if the value isn't too deep.
fn line_of(alloc: Global, value: &Value) -> Result<Vec<u8>, OutOfMemory>
    ensures { let shown = view value.now in
        has_float shown ≡ false → depth shown ≤ max_depth
        → IfOk result (λ text. (text.items ≡ json_line shown) × (read (compact_text shown) ≡ Some shown)) }
{
    let mut text = value.to_string(alloc)?.into_bytes();
    text.push(b'\n')?;
    Ok(text)
}

// A deal on a line, by what is known of the transactions.
fn told<H: Hash32>(
    alloc: Global,
    hasher: &H,
    checked: &Checked,
    deal: &Deal,
    made: &CompiledDeal,
) -> Result<Vec<u8>, OutOfMemory>
    requires { list_all (λ d. is_some (look_up d.0 deal.now.deposits)) (deposits_of checked.now.pre) ≡ true }
    ensures { let shown = spec.deal_by (H.digest_of hasher.now) deal.now.network (deal_keys deal.now) deal.now.deposits checked.now
        made.now.transactions in
        has_float shown ≡ false → depth shown ≤ max_depth
        → IfOk result (λ text. (text.items ≡ json_line shown) × (read (compact_text shown) ≡ Some shown)) }
{
    let transactions = made.transactions.as_slice();
    let value = deal_value(alloc, hasher, checked, deal, transactions)?;
    line_of(alloc, &value)
}

// The line of a compiled deal; before its end it is read back as the value that it shows.
fn shown_line<H: Hash32>(
    alloc: Global,
    hasher: &H,
    checked: &Checked,
    deal: &Deal,
    made: &CompiledDeal,
) -> Result<Vec<u8>, OutOfMemory>
    requires places { names_of deal.now.deposits ≡ needed_deposits checked.now }
    requires transactions { let hash = H.digest_of hasher.now in
        made.now.transactions ≡ transactions_of hash (deal_keys deal.now) (deal_instance checked.now deal.now) }
    ensures { let shown = deal_data (H.digest_of hasher.now) deal.now.network (deal_keys deal.now) (deal_instance checked.now deal.now) in
        IfOk result (λ text. (text.items ≡ json_line shown) × (read (compact_text shown) ≡ Some shown)) }
{
    told(alloc, hasher, checked, deal, made)
}

/// A compiled deal for people and their wallets: each deposit with the output that has to stand at its place, where each participant
/// is paid, and each transaction with its inputs, who signs them, its outputs, its fee and its size. All of it is one value of JSON
/// on one line, which is read back as this value. A transaction of 4 GiB or more, and values of more than 64 bits together, count as
/// out of memory.
pub fn show_text<H: Hash32>(
    alloc: Global,
    hasher: &H,
    checked: &Checked,
    deal: &Deal,
    made: &CompiledDeal,
) -> Result<Vec<u8>, OutOfMemory>
    requires places { names_of deal.now.deposits ≡ needed_deposits checked.now }
    requires transactions { let hash = H.digest_of hasher.now in
        made.now.transactions ≡ transactions_of hash (deal_keys deal.now) (deal_instance checked.now deal.now) }
    ensures text { let hash = H.digest_of hasher.now in
        IfOk result (λ text. text.items
        ≡ text_of hash deal.now.network (deal_keys deal.now) (deal_instance checked.now deal.now)) }
    ensures reads_back { let shown = deal_data (H.digest_of hasher.now) deal.now.network (deal_keys deal.now) (deal_instance checked.now deal.now) in
        IfOk result (λ text. read (compact_text shown) ≡ Some shown) }
{
    shown_line(alloc, hasher, checked, deal, made)
}
