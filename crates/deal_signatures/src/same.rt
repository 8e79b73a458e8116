//! What the records of an input say is compared with what is so.

ghost use Rattle.std.specs.Prelude.{◌≡◌, ◌∷◌, [], take, drop, length, Option, Some, None, option_map};
ghost use Rattle.spec_run.specs.Ledger as ledger;
ghost use Rattle.spec_deal.specs.SignatureFile as spec;
ghost use Rattle.deal_signatures.specs.Gives.{IsKeyOf, IsFinal};

use bm_keys::deposit_script;
use spec_bitcoin::TxOut;
use spec_data::{Bytes, Seq};

// Whether two outputs are the same.
fn same_output(one: &TxOut, other: &TxOut) -> bool
    ensures { result ≡ ledger.same_output one.now other.now }
{
    one.value == other.value && one.script.as_slice() == other.script.as_slice()
}

/// Whether what a record says of the spent output is so.
pub(crate) fn spent_fits(output: &TxOut, said: &Option<TxOut>) -> bool
    ensures { result ≡ spec.spent_fits output.now said.now }
{
    match said {
        None => true,
        Some(said) => same_output(said, output),
    }
}

/// Whether what a record says of the script is so.
pub(crate) fn script_fits(script: &[u8], said: &Option<Bytes>) -> bool
    ensures { result ≡ spec.script_fits script.now said.now }
{
    match said {
        None => true,
        Some(said) => said.as_slice() == script,
    }
}

// The first bytes, this many or all.
fn prefix(bytes: &[u8], count: usize) -> &[u8]
    ensures { result.now ≡ take count bytes.now }
{
    &bytes[..count.min(bytes.len())]
}

// The bytes behind the first, this many.
fn behind(bytes: &[u8], count: usize) -> &[u8]
    ensures { result.now ≡ drop count bytes.now }
{
    &bytes[count.min(bytes.len())..]
}

// The bytes of a script where its key would stand.
fn script_key(script: &[u8]) -> &[u8]
    ensures { result.now ≡ spec.script_key script.now }
{
    prefix(behind(script, 1), 33)
}

// The key of a script that is a push of a key, and CHECKSIG.
fn one_key(script: &[u8]) -> Option<[u8; 33]>
    ensures { IsKeyOf script.now result }
{
    match <[u8; 33]>::try_from(script_key(script)) {
        Ok(key) => {
            if deposit_script(&key).as_slice() == script {
                Some(key)
            } else {
                None
            }
        }
        Err(_) => None,
    }
}

/// The signature of a final witness with its key, or none where there is no final witness. No answer where the witness isn't one
/// signature and the script, which asks for one alone.
pub(crate) fn final_signature<'a>(
    script: &[u8],
    witness: &'a Option<Seq<Bytes>>,
) -> Option<Option<([u8; 33], &'a Bytes)>>
    ensures { IsFinal script.now witness.now (option_map (option_map (λ p. (p.0, p.1.now))) result) }
{
    let Some(items) = witness else {
        return Some(None);
    };
    let [signature, shown] = items.as_slice() else {
        return None;
    };
    if shown.as_slice() != script {
        return None;
    }
    match one_key(script) {
        Some(key) => Some(Some((key, signature))),
        None => None,
    }
}
