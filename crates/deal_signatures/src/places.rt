//! The byte string by which a signature is found.

ghost use Rattle.std.specs.Prelude.{◌≡◌, true, IfOk};
ghost use Rattle.spec_deal.specs.Setting.{no_key};
ghost use Rattle.deal_signatures.specs.Keying.{place_key, is_place};

use bm_text::put;
use bm_tx::put_word;
use spec_data::OutOfMemory;
use std::alloc::Global;

/// The key by which wallets' witnesses are found: it is none, and no wallet has it.
pub(crate) fn wallet_key() -> [u8; 33]
    ensures { result ≡ no_key }
{
    [0; 33]
}

/// The number of the input, the key and the bytes of the transaction, one behind the other.
#[tactic(auto, using(std::proofs::Common::append_assoc))]
pub(crate) fn place_key(
    alloc: Global,
    tx: &[u8],
    input: u32,
    key: &[u8; 33],
) -> Result<Vec<u8>, OutOfMemory>
    ensures key { IfOk result (λ place. place.items ≡ place_key tx.now input key.now) }
    ensures sized { is_place input key.now ≡ true }
{
    let mut place = Vec::with_capacity(alloc, tx.len() + 37)?;
    put_word(&mut place, input)?;
    put(&mut place, key)?;
    put(&mut place, tx)?;
    Ok(place)
}
