//! The strings of a file of secrets.

ghost use Rattle.std.specs.Prelude.{◌≡◌, Some, None, option_map, IfOk};
ghost use Rattle.spec_tool.specs.Commands.{prints};
ghost use Rattle.spec_chain.specs.Answers.{told_in};
ghost use Rattle.bm_hash.specs.Messages.{evidence_of};
ghost use Rattle.spec_deal.specs.RefusedText.{secrets_refused_line};
ghost use Rattle.spec_deal.specs.Setting.{deal_keys, deal_instance};
ghost use Rattle.spec_tool.specs.Replies.{printed};
ghost use Rattle.bitml_deal.specs.Later as later;
ghost use Rattle.bitml_deal.specs.Later.{Tells};
ghost use Rattle.bitml_deal.specs.Opens.{HashedAll};

use crate::opening::{Compiled, collision_reply};
use bm_hash::{Hash32, Trail};
use deal_secrets::{SecretsError, Strings, put_secrets_refused, read_secrets};
use spec_data::{Bytes, OutOfMemory};
use spec_deal::SecretFault;
use spec_tool::Reply;
use std::alloc::{AllocError, Global};

/// What a file of secrets comes to.
#[derive(Drop)]
pub(crate) enum Shown {
    /// It is refused, or strings collide, and this is replied.
    Refused(Reply),
    /// It gives these strings.
    Taken(Strings),
}

/// The file of secrets is refused.
pub(crate) fn secrets_refused(alloc: Global, fault: SecretFault) -> Result<Reply, OutOfMemory>
    ensures { IfOk result (λ reply. printed reply ≡ prints 15 (secrets_refused_line fault)) }
{
    let mut text = Vec::new(alloc);
    put_secrets_refused(alloc, &mut text, fault)?;
    Ok(Reply::new(15, text))
}

// The strings of a text.
fn secrets_of<H: Hash32 + Drop>(
    alloc: Global,
    trail: &mut Trail<H>,
    compiled: &Compiled,
    text: &[u8],
) -> Result<Shown, OutOfMemory>
    requires { evidence_of (H.digest_of trail.old.hasher) trail.old.messages ≡ None }
    ensures { let hash = H.digest_of trail.old.hasher in IfOk result (Tells (told_in hash
        (deal_instance compiled.now.contract compiled.now.deal) trail.old.messages (Some text.now))) }
{
    let hashes = compiled.deal.hashes.as_slice();
    match read_secrets(alloc, trail, &compiled.contract, hashes, text) {
        Ok(strings) => Ok(Shown::Taken(strings)),
        Err(SecretsError::Refused(fault)) => Ok(Shown::Refused(secrets_refused(alloc, fault)?)),
        Err(SecretsError::Collided) => Ok(Shown::Refused(collision_reply(alloc, trail)?)),
        Err(SecretsError::Memory) => Err(AllocError),
    }
}

// The strings of a file, none of whose bytes are given where it is too long.
fn secrets_in<H: Hash32 + Drop>(
    alloc: Global,
    trail: &mut Trail<H>,
    compiled: &Compiled,
    text: &Option<Bytes>,
) -> Result<Shown, OutOfMemory>
    requires { evidence_of (H.digest_of trail.old.hasher) trail.old.messages ≡ None }
    ensures { let hash = H.digest_of trail.old.hasher in IfOk result (Tells (told_in hash
        (deal_instance compiled.now.contract compiled.now.deal) trail.old.messages text.now)) }
{
    match text {
        None => Ok(Shown::Refused(secrets_refused(alloc, SecretFault::Size)?)),
        Some(bytes) => secrets_of(alloc, trail, compiled, bytes.as_slice()),
    }
}

/// The strings of a file of secrets, where there is one; without one there are none.
pub(crate) fn strings_in<H: Hash32 + Drop>(
    alloc: Global,
    trail: &mut Trail<H>,
    compiled: &Compiled,
    secrets: Option<&Option<Bytes>>,
) -> Result<Shown, OutOfMemory>
    requires { evidence_of (H.digest_of trail.old.hasher) trail.old.messages ≡ None }
    ensures told { let hash = H.digest_of trail.old.hasher in IfOk result (Tells (later.told_by hash
        (deal_instance compiled.now.contract compiled.now.deal) trail.old.messages (option_map (λ text. text.now) secrets.entry))) }
    ensures first { let hash = H.digest_of trail.old.hasher in HashedAll hash trail.old.messages compiled.now
        → IfOk result (Tells (later.strings_in hash (deal_keys compiled.now.deal)
        (deal_instance compiled.now.contract compiled.now.deal) (option_map (λ text. text.now) secrets.entry))) }
{
    match secrets {
        None => Ok(Shown::Taken(Strings::new(alloc))),
        Some(text) => secrets_in(alloc, trail, compiled, text),
    }
}
