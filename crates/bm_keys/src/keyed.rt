//! Keys, and what is made of them.

ghost use Rattle.std.specs.Prelude.{◌≡◌, IfOk, ◌∷◌, []};
ghost use Rattle.bm_hash.specs.Trails.{Hashes};
ghost use Rattle.spec_bitcoin.specs.Keys as spec;
ghost use Rattle.spec_bitcoin.specs.declared.label.Label.TheVariants.{Deposit, Branch};

use crate::texts::{deposit_text, label_text};
use bm_hash::{Hash32, Trail, TrailError};
use spec_bitcoin::Label;
use spec_data::{Name, OutOfMemory};
use spec_terms::Path;
use std::alloc::Global;

/// Byte 02 and a digest: the key of a label whose text has this hash.
pub fn key_with(digest: &[u8; 32]) -> [u8; 33]
    ensures { result ≡ 2 ∷ digest.now }
{
    let mut key = [2; 33];
    key[1..].copy_from_slice(digest);
    key
}

/// The key of a label whose text was hashed earlier, so that it isn't hashed along a trail.
pub fn label_key<H: Hash32>(
    alloc: Global,
    hasher: &H,
    label: &Label,
) -> Result<[u8; 33], OutOfMemory>
    ensures { IfOk result (λ key. key ≡ spec.key_of (H.digest_of hasher.now) label.now) }
{
    let text = label_text(alloc, label)?;
    Ok(key_with(&hasher.hash32(&text)))
}

/// A party's key of its deposits, whose label's text was hashed when the run opened.
pub fn deposit_key<H: Hash32>(
    alloc: Global,
    hasher: &H,
    party: &[u8],
) -> Result<[u8; 33], OutOfMemory>
    ensures { IfOk result (λ key. key ≡ spec.key_of (H.digest_of hasher.now) (Deposit party.now)) }
{
    let text = deposit_text(alloc, party)?;
    Ok(key_with(&hasher.hash32(&text)))
}

/// A participant's key of the branch at a path, whose label's text was hashed when the contract was compiled.
pub fn branch_key<H: Hash32>(
    alloc: Global,
    hasher: &H,
    contract: u32,
    path: &Path,
    party: &Name,
) -> Result<[u8; 33], OutOfMemory>
    ensures { IfOk result (λ key. key ≡ spec.key_of (H.digest_of hasher.now) (Branch contract path.now party.now)) }
{
    let label = Label::Branch {
        contract,
        path: path.copy(alloc)?,
        party: *party,
    };
    label_key(alloc, hasher, &label)
}

/// The key of a label: byte 02 and the hash of the label's text, which is hashed.
#[tactic(auto, using(bm_hash::proofs::HashesLemmas::stopping))]
pub fn key<H: Hash32 + Drop>(
    alloc: Global,
    trail: &mut Trail<H>,
    label: &Label,
) -> Result<[u8; 33], TrailError>
    ensures key { IfOk result (λ key. key ≡ spec.key_of (H.digest_of trail.old.hasher) label.now) }
    ensures trail { Hashes H.digest_of trail.old trail.new (spec.label_text label.now ∷ []) result }
{
    if trail.has_collided() {
        return Err(TrailError::Collided);
    }
    let text = label_text(alloc, label)?;
    let digest = trail.hash(&text)?;
    Ok(key_with(&digest))
}

/// The script of a deposit: a push of the key, and CHECKSIG.
pub fn deposit_script(key: &[u8; 33]) -> [u8; 35]
    ensures { result ≡ spec.deposit_script key.now }
{
    let mut script = [33; 35];
    script[1..34].copy_from_slice(key);
    script[34] = 0xac;
    script
}

/// What an output pays to whose script has this hash: a witness program of version 0, by BIP 141.
pub fn pay_to(program: &[u8; 32]) -> [u8; 34]
    ensures { result ≡ spec.pay_to program.now }
{
    let mut script = [0; 34];
    script[1] = 32;
    script[2..].copy_from_slice(program);
    script
}

/// The signature of a digest by a key: an ideal one, with the hash type ALL.
pub fn signature(key: &[u8; 33], digest: &[u8; 32]) -> [u8; 66]
    ensures { result ≡ spec.signature_of key.now digest.now }
{
    let mut signature = [1; 66];
    signature[33..65].copy_from_slice(digest);
    signature[..33].copy_from_slice(key);
    signature
}
