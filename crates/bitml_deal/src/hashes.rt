//! What `hashes` replies.

ghost use Rattle.std.specs.Prelude.{◌≡◌, [], length, IfOk};
ghost use Rattle.spec_tool.specs.Answers.{contract_in};
ghost use Rattle.spec_tool.specs.Commands.{prints};
ghost use Rattle.spec_tool.specs.Reads.{text_at};
ghost use Rattle.spec_deal.specs.Answers as answers;
ghost use Rattle.spec_deal.specs.Answers.{with_advert};
ghost use Rattle.spec_deal.specs.HashesText as spec;
ghost use Rattle.spec_tool.specs.Replies.{printed};
ghost use Rattle.bitml_deal.specs.Later.{Tells};

use crate::opening::collision_reply;
use crate::secrets::{Shown, secrets_refused};
use bm_hash::{Hash32, Trail};
use bm_wellformed::Checked;
use deal_secrets::{SecretsError, Strings, hashes_text, read_offered};
use spec_data::{Bytes, OutOfMemory};
use spec_deal::SecretFault;
use spec_tool::Reply;
use std::alloc::{AllocError, Global};
use tool_command::{JudgeError, contract_in, contract_refused};

// The strings of a file of secrets that no deal has yet.
fn offered_in<H: Hash32 + Drop>(
    alloc: Global,
    trail: &mut Trail<H>,
    contract: &Checked,
    text: &Option<Bytes>,
) -> Result<Shown, OutOfMemory>
    requires { trail.old.messages ≡ [] }
    ensures hasher { trail.new.hasher ≡ trail.old.hasher }
    ensures tells { IfOk result (Tells (answers.offered_in (H.digest_of trail.old.hasher) contract.now text.now)) }
{
    let Some(bytes) = text else {
        return Ok(Shown::Refused(secrets_refused(alloc, SecretFault::Size)?));
    };
    match read_offered(alloc, trail, contract, bytes.as_slice()) {
        Ok(strings) => Ok(Shown::Taken(strings)),
        Err(SecretsError::Refused(fault)) => Ok(Shown::Refused(secrets_refused(alloc, fault)?)),
        Err(SecretsError::Collided) => Ok(Shown::Refused(collision_reply(alloc, trail)?)),
        Err(SecretsError::Memory) => Err(AllocError),
    }
}

// The hashes of these strings, as lines of a deal file.
fn shown<H: Hash32>(alloc: Global, hasher: &H, strings: &Strings) -> Result<Reply, OutOfMemory>
    ensures { IfOk result (λ reply. printed reply ≡ prints 0 (spec.hashes_text (H.digest_of hasher.now) strings.now)) }
{
    let text = hashes_text(alloc, hasher, strings)?;
    Ok(Reply::new(0, text))
}

// What is replied of a contract to the text of a file of secrets.
fn file_reply<H: Hash32 + Drop>(
    alloc: Global,
    hash: H,
    contract: &Checked,
    text: &Option<Bytes>,
) -> Result<Reply, OutOfMemory>
    ensures { IfOk result (λ reply. printed reply ≡ answers.hashes_answer (H.digest_of hash) text.now contract.now) }
{
    let mut trail = Trail::new(alloc, hash);
    match offered_in(alloc, &mut trail, contract, text)? {
        Shown::Refused(reply) => Ok(reply),
        Shown::Taken(strings) => shown(alloc, trail.hasher(), &strings),
    }
}

/// What `hashes` replies to the texts of its contract and its file of secrets.
pub(crate) fn hashes_texts<H: Hash32 + Drop>(
    alloc: Global,
    hash: H,
    texts: &[Option<Bytes>],
) -> Result<Reply, OutOfMemory>
    requires { length texts.now ≡ 2 }
    ensures { IfOk result (λ reply. printed reply
        ≡ with_advert (answers.hashes_answer (H.digest_of hash) (text_at texts.now 1)) (contract_in (text_at texts.now 0))) }
{
    match contract_in(alloc, &texts[0]) {
        Ok(contract) => file_reply(alloc, hash, &contract, &texts[1]),
        Err(JudgeError::Refused(why)) => contract_refused(alloc, 0, why.as_slice()),
        Err(JudgeError::Memory) => Err(AllocError),
    }
}
