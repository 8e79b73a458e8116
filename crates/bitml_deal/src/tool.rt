//! The whole program, over files and a sink that are handed in.

ghost use Rattle.std.specs.Prelude.{◌≡◌, ℕ, List, length, Some, map, string_bytes, refl, is_some, true, option_map, IfOk, OnErr};
ghost use Rattle.spec_tool.specs.Replies.{printed};
ghost use Rattle.spec_deal.specs.Verifier.{secp256k1};
ghost use Rattle.spec_chain.specs.Answers.{chain_read_answer};
ghost use Rattle.spec_chain.specs.Commands.{chain_files, chain_command_of};
ghost use Rattle.tool_shell.specs.Around.{around};
ghost use Rattle.tool_shell.specs.Asked.{asked};
ghost use Rattle.bitml_deal.specs.Dealt.{seen, Headline};

use crate::answering::text_reply;
use bm_hash::{Hash32, hashes_bytes};
use bm_io::{Files, Sink};
use deal_command::{DealCommand, command_of, files_of};
use spec_data::{Bytes, OutOfMemory};
use spec_tool::Reply;
use std::alloc::Global;
use theory_chain::{
    accepted_exactly, aside_anywhere, bad_exactly, cannot_is_refused, chains_are_refused,
    chains_are_spelled, followed_exactly, not_asked_is_spent, own_is_accepted, refused_exactly,
    requirements_in_order, revealed_exactly, revealed_once, secrets_exactly, waits_exactly,
    what_can_goes_on,
};
use theory_deal::{
    are_light, deal_files_are_read, deal_statuses_have_causes, deals_are_sized, deals_ask,
    deals_give_all, deals_hash, false_without_one, files_for_signers, finish_answers,
    finish_theorem, finishes_exactly, is_ecdsa, keys_are_given, keys_are_points, keys_are_used,
    may_start, missing_and_held, none_is_circular, nothing_twice, parts_are_read, plain_deals,
    plan_of_runs, scripts_are_payable, secret_files_are_read, signature_files_are_read,
    signatures_verify, witnesses_verify,
};
use theory_deal_text::{deal_texts_are_read, filled_keys_are_taken};
use theory_follow::{asides_left_out, chains_come, ledgers_follow, taken_stands};
use theory_script::any_keys::script_theorem;
use theory_state::{chain_statuses_have_causes, state_answers};
use theory_state_text::state_tells_secrets;
use theory_wallets::{
    addresses_of_deals, deals_are_shown, for_wallets, networks_add_addresses, parties_endorse,
    ready_and_missing, warns_of_values,
};
use tool_shell::{Call, serve};

/// A command on a deal, as it is served.
#[derive(Drop)]
pub(crate) struct DealCall<'a> {
    command: DealCommand<'a>,
}

impl Call for DealCall<'_> {
    ghost is_served = { λ call. Unit {0} };

    ghost asks = { λ call. chain_files (seen call) };

    ghost answers = { λ hash call. chain_read_answer secp256k1 hash (seen call) };

    ghost unread = { λ hash call. refl };

    fn files(&self, alloc: Global) -> Result<Vec<(&str, usize)>, OutOfMemory>
        ensures { IfOk result (λ v. map asked v.items ≡ chain_files (seen self.now)) }
    {
        files_of(alloc, &self.command)
    }

    fn reply<H: Hash32 + Drop>(
        &self,
        alloc: Global,
        hash: H,
        texts: &[Option<Bytes>],
    ) -> Result<Reply, OutOfMemory>
        requires count { length texts.now ≡ length (chain_files (seen self.now)) }
        ensures { IfOk result (λ reply. printed reply
            ≡ chain_read_answer secp256k1 (H.digest_of hash) (seen self.now) (Some texts.now)) }
    {
        text_reply(alloc, hash, &self.command, texts)
    }
}

/// The command that words are, if they are one. Of words that are none no memory is asked.
fn call_of(alloc: Global, words: &[String]) -> Result<Option<DealCall<'_>>, OutOfMemory>
    ensures command { IfOk result (λ call. option_map seen call ≡ chain_command_of (map string_bytes words.now)) }
    ensures memory { OnErr result (is_some (chain_command_of (map string_bytes words.now)) ≡ true) }
{
    match command_of(alloc, words)? {
        None => Ok(None),
        Some(command) => Ok(Some(DealCall { command })),
    }
}

/// Runs the command that words are: reads its files, writes its text, and answers its status. Each status comes by its cause, and what is
/// written of a deal that is taken is as the theorems on deals say, for ECDSA over secp256k1: its signatures verify, and a transaction that
/// it finishes is accepted by each ledger on which what it spends is live, from its lock on. Where a deal stands after a chain is shown as
/// a legal run of the calculus, with what can come next, and what never does; and that text is a file of secrets with just what is known.
pub fn deal_tool<H: Hash32 + Drop, F: Files, S: Sink>(
    alloc: Global,
    words: &[String],
    hash: H,
    files: &mut F,
    out: &mut S,
) -> u8
    ensures { Headline (H.digest_of hash) (chain_command_of (map string_bytes words.now))
        (around (F.told files.old) (F.log files.old) (F.taken files.old) (F.faults files.old) (S.pieces out.old) (S.faults out.old))
        (around (F.told files.new) (F.log files.new) (F.taken files.new) (F.faults files.new) (S.pieces out.new) (S.faults out.new)) result }
{
    hashes_bytes(&hash);
    deal_statuses_have_causes();
    chain_statuses_have_causes();
    deals_give_all();
    deals_are_sized();
    keys_are_points();
    scripts_are_payable();
    keys_are_given();
    witnesses_verify();
    signatures_verify();
    plan_of_runs();
    deals_ask();
    deals_hash();
    files_for_signers();
    nothing_twice();
    is_ecdsa();
    deal_files_are_read();
    parts_are_read();
    filled_keys_are_taken();
    signature_files_are_read();
    secret_files_are_read();
    missing_and_held();
    may_start();
    finishes_exactly();
    finish_theorem();
    finish_answers();
    state_answers();
    state_tells_secrets();
    deal_texts_are_read();
    chains_are_spelled();
    chains_are_refused();
    followed_exactly();
    refused_exactly();
    bad_exactly();
    own_is_accepted();
    secrets_exactly();
    revealed_exactly();
    revealed_once();
    aside_anywhere();
    chains_come();
    asides_left_out();
    ledgers_follow();
    taken_stands();
    requirements_in_order();
    waits_exactly();
    accepted_exactly();
    cannot_is_refused();
    not_asked_is_spent();
    what_can_goes_on();
    plain_deals();
    keys_are_used();
    networks_add_addresses();
    addresses_of_deals();
    for_wallets();
    none_is_circular();
    ready_and_missing();
    parties_endorse();
    deals_are_shown();
    warns_of_values();
    are_light();
    script_theorem();
    false_without_one();
    serve(alloc, hash, call_of(alloc, words), files, out)
}
