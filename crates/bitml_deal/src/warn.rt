//! What `warn` replies: what nodes wouldn't relay.

ghost use Rattle.std.specs.Prelude.{◌≡◌, ℕ, List, option_map, IfOk};
ghost use Rattle.spec_tool.specs.Commands.{prints};
ghost use Rattle.spec_deal.specs.WarnText as spec;
ghost use Rattle.spec_tool.specs.Replies.{printed};
ghost use Rattle.bitml_deal.specs.Later as later;
ghost use Rattle.bitml_deal.specs.Opens.{answered, IsMade, HashedAll};

use crate::opening::Compiled;
use crate::secrets::{Shown, strings_in};
use bm_hash::{Hash32, Trail};
use deal_secrets::Strings;
use deal_warn::warn_text;
use spec_data::{Bytes, OutOfMemory};
use spec_tool::Reply;
use std::alloc::Global;

// The warnings of a deal with these strings.
fn warned(alloc: Global, compiled: &Compiled, strings: &Strings) -> Result<Reply, OutOfMemory>
    ensures { (hash : List ℕ → List ℕ) → IsMade hash compiled.now
        → IfOk result (λ reply. printed reply ≡ answered (λ keys s. prints 0 (spec.warn_text hash keys s strings.now)) compiled.now) }
{
    let text = warn_text(
        alloc,
        &compiled.contract,
        compiled.made.transactions.as_slice(),
        compiled.made.scripts.as_slice(),
        strings,
    )?;
    Ok(Reply::new(0, text))
}

/// What `warn` replies to a file of secrets, where the words name one.
pub(crate) fn warn_reply<H: Hash32 + Drop>(
    alloc: Global,
    trail: &mut Trail<H>,
    compiled: &Compiled,
    secrets: Option<&Option<Bytes>>,
) -> Result<Reply, OutOfMemory>
    requires made { IsMade (H.digest_of trail.old.hasher) compiled.now }
    requires hashed { HashedAll (H.digest_of trail.old.hasher) trail.old.messages compiled.now }
    ensures { let hash = H.digest_of trail.old.hasher in IfOk result (λ reply. printed reply
        ≡ answered (later.warn_answer hash (option_map (λ text. text.now) secrets.entry)) compiled.now) }
{
    match strings_in(alloc, trail, compiled, secrets)? {
        Shown::Refused(reply) => Ok(reply),
        Shown::Taken(strings) => warned(alloc, compiled, &strings),
    }
}
