//! What each command replies to the texts of its files.

ghost use Rattle.std.specs.Prelude.{◌≡◌, ◌≤◌, true, length, IfOk};
ghost use Rattle.spec_tool.specs.Reads.{text_at};
ghost use Rattle.spec_chain.specs.Answers.{chain_text_answer};
ghost use Rattle.spec_chain.specs.Commands.{chain_files};
ghost use Rattle.spec_deal.specs.Verifier.{secp256k1};
ghost use Rattle.spec_tool.specs.Replies.{printed};
ghost use Rattle.deal_command.specs.Seen.{command};
ghost use Rattle.bitml_deal.specs.Later.{reads_deal, later_answer};
ghost use Rattle.bitml_deal.specs.Opens.{shown_answered, IsMade, HashedAll};

use crate::endorse::endorse_reply;
use crate::finish::finish_reply;
use crate::fund::fund_texts;
use crate::hashes::hashes_texts;
use crate::keys::keys_texts;
use crate::opening::{Compiled, Opening, open};
use crate::plan::{plan_reply, show_reply};
use crate::psbt::{psbt_reply, psbts_reply};
use crate::ready::ready_reply;
use crate::signatures::{held_reply, missing_reply};
use crate::state::state_reply;
use crate::warn::warn_reply;
use bm_hash::{Hash32, Trail};
use deal_command::DealCommand;
use spec_data::{Bytes, OutOfMemory};
use spec_tool::Reply;
use std::alloc::Global;

// The file of signatures of a command, the chain file of one that reads a chain, or the secrets of one that reads no signatures.
fn third(texts: &[Option<Bytes>]) -> &Option<Bytes>
    requires { 3 ≤ length texts.now }
    ensures { result.now ≡ text_at texts.now 2 }
{
    &texts[2]
}

// The file of secrets of a command, or the file of signatures of one that reads a chain.
fn fourth(texts: &[Option<Bytes>]) -> &Option<Bytes>
    requires { 4 ≤ length texts.now }
    ensures { result.now ≡ text_at texts.now 3 }
{
    &texts[3]
}

// The file of secrets of a command that reads a chain.
fn fifth(texts: &[Option<Bytes>]) -> &Option<Bytes>
    requires { 5 ≤ length texts.now }
    ensures { result.now ≡ text_at texts.now 4 }
{
    &texts[4]
}

// What a command replies to a deal that is taken, and to the texts of its further files.
fn compiled_reply<H: Hash32 + Drop>(
    alloc: Global,
    trail: &mut Trail<H>,
    call: &DealCommand,
    compiled: &Compiled,
    texts: &[Option<Bytes>],
) -> Result<Reply, OutOfMemory>
    requires count { length texts.now ≡ length (chain_files (command call.now)) }
    requires deal { reads_deal (command call.now) ≡ true }
    requires made { IsMade (H.digest_of trail.old.hasher) compiled.now }
    requires hashed { HashedAll (H.digest_of trail.old.hasher) trail.old.messages compiled.now }
    ensures { let hash = H.digest_of trail.old.hasher in
        IfOk result (λ reply. printed reply ≡ shown_answered (later_answer hash (command call.now) texts.now) compiled.now) }
{
    let transactions = compiled.made.transactions.as_slice();
    match call {
        DealCommand::Keys(_) | DealCommand::Fund(_, _) | DealCommand::Hashes(_, _) =>
            unreachable!(),
        DealCommand::Plan(_, _) => plan_reply(alloc, trail.hasher(), compiled),
        DealCommand::Psbts(_, _) => psbts_reply(alloc, transactions),
        DealCommand::Psbt(_, _, which) => psbt_reply(alloc, transactions, which),
        DealCommand::Missing(_, _, _) => missing_reply(alloc, transactions, third(texts)),
        DealCommand::Held(_, _, _) => held_reply(alloc, transactions, third(texts)),
        DealCommand::Finish(_, _, which, _) => {
            finish_reply(alloc, trail, compiled, which, third(texts), None)
        }
        DealCommand::FinishWith(_, _, which, _, _) => {
            let secrets = Some(fourth(texts));
            finish_reply(alloc, trail, compiled, which, third(texts), secrets)
        }
        DealCommand::Warn(_, _) => warn_reply(alloc, trail, compiled, None),
        DealCommand::WarnWith(_, _, _) => warn_reply(alloc, trail, compiled, Some(third(texts))),
        DealCommand::Ready(_, _, _) => ready_reply(alloc, trail, compiled, third(texts), None),
        DealCommand::ReadyWith(_, _, _, _) => {
            ready_reply(alloc, trail, compiled, third(texts), Some(fourth(texts)))
        }
        DealCommand::Endorse(_, _, party) => endorse_reply(alloc, transactions, party.as_bytes()),
        DealCommand::Show(_, _) => show_reply(alloc, trail.hasher(), compiled),
        DealCommand::State(_, _, _, _) => {
            state_reply(alloc, trail, compiled, third(texts), fourth(texts), None)
        }
        DealCommand::StateWith(_, _, _, _, _) => {
            let secrets = Some(fifth(texts));
            state_reply(alloc, trail, compiled, third(texts), fourth(texts), secrets)
        }
    }
}

// What a command that reads a deal replies to the texts of its files.
fn deal_reply<H: Hash32 + Drop>(
    alloc: Global,
    hash: H,
    call: &DealCommand,
    texts: &[Option<Bytes>],
) -> Result<Reply, OutOfMemory>
    requires count { length texts.now ≡ length (chain_files (command call.now)) }
    requires deal { reads_deal (command call.now) ≡ true }
    ensures { IfOk result (λ reply. printed reply ≡ chain_text_answer secp256k1 (H.digest_of hash) (command call.now) texts.now) }
{
    let mut trail = Trail::new(alloc, hash);
    match open(alloc, &mut trail, texts)? {
        Opening::Refused(reply) => Ok(reply),
        Opening::Taken(compiled) => compiled_reply(alloc, &mut trail, call, &compiled, texts),
    }
}

/// What a command replies to the texts of its files.
pub(crate) fn text_reply<H: Hash32 + Drop>(
    alloc: Global,
    hash: H,
    call: &DealCommand,
    texts: &[Option<Bytes>],
) -> Result<Reply, OutOfMemory>
    requires { length texts.now ≡ length (chain_files (command call.now)) }
    ensures { IfOk result (λ reply. printed reply ≡ chain_text_answer secp256k1 (H.digest_of hash) (command call.now) texts.now) }
{
    match call {
        DealCommand::Keys(_) => keys_texts(alloc, texts),
        DealCommand::Fund(_, _) => fund_texts(alloc, hash, texts),
        DealCommand::Hashes(_, _) => hashes_texts(alloc, hash, texts),
        _ => deal_reply(alloc, hash, call, texts),
    }
}
