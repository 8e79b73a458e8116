//! The strings that a text gives to the secrets of a contract.

ghost use Rattle.std.specs.Prelude.{◌≡◌, ◌≤◌, [], None, length, option_map};
ghost use Rattle.spec_compiler.specs.Keyed.Instance.{Instance};
ghost use Rattle.spec_compiler.specs.Keyed.Keys.{Keys};
ghost use Rattle.spec_text.specs.Lines.{lines_of};
ghost use Rattle.spec_deal.specs.Hashed.{deal_strings};
ghost use Rattle.spec_deal.specs.HashesText.{read_offered};
ghost use Rattle.spec_deal.specs.SecretFile as spec;
ghost use Rattle.spec_deal.specs.Sizes.{most_secrets_bytes};
ghost use Rattle.bm_hash.specs.Messages.{evidence_of};
ghost use Rattle.bm_hash.specs.Trails.{Hashed};
ghost use Rattle.deal_secrets.specs.Gives.{Gives, at_line};
ghost use Rattle.deal_secrets.specs.Offers.{IsWanted};

use crate::error::{LineError, SecretsError};
use crate::lines::take_line;
use crate::strings::Strings;
use bm_hash::{Hash32, Trail};
use bm_runfile::first_line;
use bm_wellformed::Checked;
use spec_data::Name;
use spec_deal::SecretFault;
use std::alloc::Global;

/// The most bytes of a file of secrets.
const MOST_SECRETS_BYTES: usize = 1_048_576;

fn at_line(error: LineError, line: u32) -> SecretsError
    ensures { result ≡ at_line error line }
{
    match error {
        LineError::Bad(reason) => SecretsError::Refused(SecretFault::Line(line, reason)),
        LineError::Collided => SecretsError::Collided,
        LineError::Memory => SecretsError::Memory,
    }
}

// The strings of a text that isn't too long, by these hashes, or whatever their hashes are.
fn read_lines<H: Hash32 + Drop>(
    alloc: Global,
    trail: &mut Trail<H>,
    checked: &Checked,
    hashes: Option<&[(Name, [u8; 32])]>,
    text: &[u8],
) -> Result<Strings, SecretsError>
    requires clear { evidence_of (H.digest_of trail.old.hasher) trail.old.messages ≡ None }
    requires size { length text.now ≤ most_secrets_bytes }
    ensures hasher { trail.new.hasher ≡ trail.old.hasher }
    ensures gives { let hash = H.digest_of trail.old.hasher in
        (s : Instance) → s.advert ≡ checked.now → IsWanted hash s (option_map (λ h. h.now) hashes.entry) text.now
        → Gives (evidence_of hash trail.new.messages) result (spec.read_lines hash s trail.old.messages [] 1 (lines_of text.now)) }
{
    let mut strings = Strings::new(alloc);
    let mut rest = text;
    let mut line = 1u32;
    while !rest.is_empty() {
        let (prefix, more) = first_line(rest);
        if let Err(error) = take_line(alloc, trail, checked, hashes, &mut strings, line, prefix) {
            return Err(at_line(error, line));
        }
        rest = more;
        line += 1;
    }
    Ok(strings)
}

/// The strings that a text gives to the secrets of a contract, by the hashes that a deal has for them, or why it is refused. Each
/// string is hashed behind the strings of the compiled deal; where two of all these collide, the trail has the evidence.
pub fn read_secrets<H: Hash32 + Drop>(
    alloc: Global,
    trail: &mut Trail<H>,
    checked: &Checked,
    hashes: &[(Name, [u8; 32])],
    text: &[u8],
) -> Result<Strings, SecretsError>
    requires clear { evidence_of (H.digest_of trail.old.hasher) trail.old.messages ≡ None }
    ensures hasher { trail.new.hasher ≡ trail.old.hasher }
    ensures behind { let hash = H.digest_of trail.old.hasher in
        (s : Instance) → s.advert ≡ checked.now → s.hashes ≡ hashes.now
        → Gives (evidence_of hash trail.new.messages) result (spec.read_behind hash s trail.old.messages text.now) }
    ensures gives { let hash = H.digest_of trail.old.hasher in
        (keys : Keys) (s : Instance) → s.advert ≡ checked.now → s.hashes ≡ hashes.now
        → Hashed hash [] trail.old.messages (deal_strings hash keys s)
        → Gives (evidence_of hash trail.new.messages) result (spec.read_secrets hash keys s text.now) }
{
    if text.len() > MOST_SECRETS_BYTES {
        return Err(SecretsError::Refused(SecretFault::Size));
    }
    read_lines(alloc, trail, checked, Some(hashes), text)
}

/// The strings that a text gives to the secrets of a contract, whatever their hashes are, or why it is refused. Each string is hashed;
/// where two of them collide, the trail has the evidence.
pub fn read_offered<H: Hash32 + Drop>(
    alloc: Global,
    trail: &mut Trail<H>,
    checked: &Checked,
    text: &[u8],
) -> Result<Strings, SecretsError>
    requires { trail.old.messages ≡ [] }
    ensures hasher { trail.new.hasher ≡ trail.old.hasher }
    ensures gives { let hash = H.digest_of trail.old.hasher in
        Gives (evidence_of hash trail.new.messages) result (read_offered hash checked.now text.now) }
{
    if text.len() > MOST_SECRETS_BYTES {
        return Err(SecretsError::Refused(SecretFault::Size));
    }
    read_lines(alloc, trail, checked, None, text)
}
