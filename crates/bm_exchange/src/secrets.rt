//! Secrets: how long they are, and those of honest parties, which stand in the header.

ghost use Rattle.std.specs.Prelude.{◌≡◌, ◌&&◌, option_map};
ghost use Rattle.std.specs.Str.{bytes_eq};
ghost use Rattle.spec_run.specs.Setup.{held_among};
ghost use Rattle.spec_run.specs.Committing as committing;

use spec_data::{LEAST_SECRET_BYTES, MOST_ITEM_BYTES, Name};
use spec_run::HeldSecret;

/// Whether the bytes have the size of a secret.
pub fn is_secret_long(bytes: &[u8]) -> bool
    ensures { result ≡ committing.is_secret_long bytes.now }
{
    LEAST_SECRET_BYTES <= bytes.len() && bytes.len() <= MOST_ITEM_BYTES
}

// Whether it is the party's secret of this name. Of many secrets few have the name, and most are the party's.
fn is_held(held: &HeldSecret, party: &Name, name: &Name) -> bool
    ensures { result ≡ (bytes_eq held.now.party party.now && bytes_eq held.now.name name.now) }
{
    held.name == *name && held.party == *party
}

/// The party's secret of this name among these.
pub fn held_secret<'a>(secrets: &'a [HeldSecret], party: &Name, name: &Name) -> Option<&'a [u8]>
    ensures { option_map (λ b. b.now) result ≡ held_among party.now name.now secrets.now }
{
    for held in secrets {
        if is_held(held, party, name) {
            return Some(held.bytes.as_slice());
        }
    }
    None
}
