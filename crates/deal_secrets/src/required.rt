//! The secrets of a contract, and their hashes.

ghost use Rattle.std.specs.Prelude.{◌≡◌, option_map};
ghost use Rattle.std.specs.Str.{bytes_eq};
ghost use Rattle.spec_terms.specs.Precondition.{secrets, names_of};
ghost use Rattle.spec_compiler.specs.Scripts.{digest_of};
ghost use Rattle.spec_text.specs.Words.{one_of};
ghost use Rattle.deal_secrets.specs.Offers as spec;

use spec_data::Name;
use spec_terms::Pre;

/// The name of the secret that a word is, if the precondition has it.
pub(crate) fn secret_named(pre: &[Pre], word: &[u8]) -> Option<Name>
    ensures { result ≡ one_of (names_of (secrets pre.now)) word.now }
{
    for entry in pre {
        if let Pre::Secret { name, .. } = entry {
            if name.bytes() == word {
                return Some(*name);
            }
        }
    }
    None
}

// Whether this is the hash that was given for the secret of this name.
fn is_hash_of(hashes: &[(Name, [u8; 32])], name: &Name, digest: &[u8; 32]) -> bool
    ensures { result ≡ bytes_eq digest.now (digest_of hashes.now name.now) }
{
    for (known, hash) in hashes {
        if *known == *name {
            return *digest == *hash;
        }
    }
    false
}

/// Whether this is the hash that the secret of this name is to have, if there is a list of them; else any will do.
pub(crate) fn fits(hashes: Option<&[(Name, [u8; 32])]>, name: &Name, digest: &[u8; 32]) -> bool
    ensures { result ≡ spec.fits (option_map (λ h. h.now) hashes.entry) name.now digest.now }
{
    match hashes {
        Some(hashes) => is_hash_of(hashes, name, digest),
        None => true,
    }
}
