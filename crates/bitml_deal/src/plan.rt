//! What `plan` and `show` reply.

ghost use Rattle.std.specs.Prelude.{◌≡◌, IfOk};
ghost use Rattle.spec_tool.specs.Commands.{prints};
ghost use Rattle.spec_deal.specs.DealText as shown;
ghost use Rattle.spec_show.specs.ShowText as json;
ghost use Rattle.spec_tool.specs.Replies.{printed};
ghost use Rattle.bitml_deal.specs.Opens.{shown_answered, IsMade};

use crate::opening::Compiled;
use bm_hash::Hash32;
use deal_plan::plan_text;
use deal_show::show_text;
use spec_data::OutOfMemory;
use spec_tool::Reply;
use std::alloc::Global;

/// Scripts, deposits, transactions and digests, and who signs.
pub(crate) fn plan_reply<H: Hash32>(
    alloc: Global,
    hasher: &H,
    compiled: &Compiled,
) -> Result<Reply, OutOfMemory>
    requires { IsMade (H.digest_of hasher.now) compiled.now }
    ensures { let hash = H.digest_of hasher.now in
        IfOk result (λ reply. printed reply ≡ shown_answered (λ network keys s. prints 0 (shown.plan_text hash network keys s)) compiled.now) }
{
    let text = plan_text(
        alloc,
        hasher,
        &compiled.contract,
        &compiled.deal,
        &compiled.made,
    )?;
    Ok(Reply::new(0, text))
}

/// The same for people and their wallets, as JSON.
pub(crate) fn show_reply<H: Hash32>(
    alloc: Global,
    hasher: &H,
    compiled: &Compiled,
) -> Result<Reply, OutOfMemory>
    requires { IsMade (H.digest_of hasher.now) compiled.now }
    ensures { let hash = H.digest_of hasher.now in
        IfOk result (λ reply. printed reply ≡ shown_answered (λ network keys s. prints 0 (json.show_text hash network keys s)) compiled.now) }
{
    let text = show_text(
        alloc,
        hasher,
        &compiled.contract,
        &compiled.deal,
        &compiled.made,
    )?;
    Ok(Reply::new(0, text))
}
