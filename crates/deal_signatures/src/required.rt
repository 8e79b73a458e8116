//! Where signatures are needed, and of which digests.

ghost use Rattle.std.specs.Prelude.{◌≡◌, ◌++◌, ◌∷◌, [], List, ℕ, true, map, option_map, IfOk, OnOk};
ghost use Rattle.std.specs.List.{find};
ghost use Rattle.spec_deal.specs.SignatureFile as file;
ghost use Rattle.spec_deal.specs.Transactions as spec;
ghost use Rattle.spec_deal.specs.Transactions.{Required};
ghost use Rattle.spec_deal.specs.Verifier.{secp256k1};
ghost use Rattle.deal_signatures.specs.Agreeing as agreeing;
ghost use Rattle.deal_signatures.specs.Keying.{signed_by, required_at};
ghost use Rattle.deal_signatures.specs.Seen.{required_in};

use crate::places::place_key;
use curve_verify::verify;
use deal_index::{Indexed, Keyed};
use spec_data::{Bytes, OutOfMemory};
use spec_deal::{Input, Transaction};
use std::alloc::{AllocError, Global};
use std::marker::Model;

/// Where a signature is needed, found by all of it, and the digest that it is of.
pub(crate) struct Place {
    pub(crate) tx: Bytes,
    pub(crate) input: u32,
    pub(crate) key: [u8; 33],
    pub(crate) digest: [u8; 32],
}

impl Drop for Place {
    fn drop(self) {
        let Place {
            tx: _,
            input: _,
            key: _,
            digest: _,
        } = self;
    }
}

impl Keyed for Place {
    ghost use Rattle.deal_signatures.specs.Keying.{place_key, is_place};

    ghost key_of = { λ place. place_key place.tx place.input place.key };

    ghost is_sized = { λ place. is_place place.input place.key };
}

/// Where signatures are needed. Two paths may have one transaction, so that one place is needed twice.
pub(crate) struct Outstanding {
    places: Indexed<Place>,
    // whether all that are needed at one place are of one digest, so that one verification is enough
    agree: bool,
}

impl Model for Outstanding {
    ghost use Rattle.std.specs.Prelude.{◌≡◌, List, map};
    ghost use Rattle.spec_deal.specs.Transactions.{Required};
    ghost use Rattle.deal_signatures.specs.Agreeing.{do_agree};
    ghost use Rattle.deal_signatures.specs.Seen.{required_in};

    ghost Value = { List Required };

    ghost view = { λ outstanding. map required_in outstanding.places };

    ghost invariant = { λ outstanding. outstanding.agree ≡ do_agree (map required_in outstanding.places) };
}

impl Drop for Outstanding {
    fn drop(self) {
        let Outstanding {
            places: _,
            agree: _,
        } = self;
    }
}

/// A number of 32 bits; a greater one counts as out of memory.
pub fn narrow(number: usize) -> Result<u32, OutOfMemory>
    ensures { IfOk result (λ n. n ≡ number) }
{
    if number > u32::MAX as usize {
        return Err(AllocError);
    }
    Ok(number as u32)
}

// ---- gathered

fn put_place(
    alloc: Global,
    places: &mut Indexed<Place>,
    tx: &[u8],
    input: u32,
    key: &[u8; 33],
    digest: &[u8; 32],
) -> Result<(), OutOfMemory>
    ensures { OnOk result (map required_in places.new ≡ map required_in places.old ++ required_at tx.now input key.now digest.now ∷ []) }
{
    let found_by = place_key(alloc, tx, input, key)?;
    let place = Place {
        tx: Bytes::from_slice(alloc, tx)?,
        input,
        key: *key,
        digest: *digest,
    };
    places.push(place, found_by)
}

// Those of an input.
#[tactic(auto, using(std::proofs::Common::append_assoc))]
fn put_signers(
    alloc: Global,
    places: &mut Indexed<Place>,
    tx: &[u8],
    number: usize,
    input: &Input,
) -> Result<(), OutOfMemory>
    ensures { OnOk result (map required_in places.new ≡ map required_in places.old ++ spec.input_required tx.now number input.now) }
{
    let number = narrow(number)?;
    for signer in input.signers.as_slice() {
        put_place(alloc, places, tx, number, &signer.key, &input.digest)?;
    }
    Ok(())
}

// Those of a transaction.
#[tactic(auto, using(std::proofs::Common::append_assoc))]
fn put_inputs(
    alloc: Global,
    places: &mut Indexed<Place>,
    transaction: &Transaction,
) -> Result<(), OutOfMemory>
    ensures { OnOk result (map required_in places.new ≡ map required_in places.old ++ spec.transaction_required transaction.now) }
{
    for (number, input) in transaction.inputs.as_slice().iter().enumerate() {
        put_signers(alloc, places, transaction.bytes.as_slice(), number, input)?;
    }
    Ok(())
}

// Those of all transactions.
#[tactic(auto, using(std::proofs::Common::append_assoc))]
fn places_of(alloc: Global, transactions: &[Transaction]) -> Result<Indexed<Place>, OutOfMemory>
    ensures { IfOk result (λ places. map required_in places ≡ spec.all_required transactions.now) }
{
    let mut places = Indexed::new(alloc);
    for transaction in transactions {
        put_inputs(alloc, &mut places, transaction)?;
    }
    Ok(places)
}

// ---- looked up

// The first that is needed of this input of the transaction with these bytes, by this key.
fn first_at<'a>(
    alloc: Global,
    places: &'a Indexed<Place>,
    tx: &[u8],
    input: u32,
    key: &[u8; 33],
) -> Result<Option<&'a Place>, OutOfMemory>
    ensures { (signature : List ℕ) → IfOk result (λ o. option_map required_in (option_map (λ p. p.now) o)
        ≡ find (λ (w : Required). spec.is_at w.spot (signed_by tx.now input key.now signature)) (map required_in places.now)) }
{
    let found_by = place_key(alloc, tx, input, key)?;
    Ok(places.find(&found_by))
}

// Whether one is.
fn is_at(
    alloc: Global,
    places: &Indexed<Place>,
    tx: &[u8],
    input: u32,
    key: &[u8; 33],
) -> Result<bool, OutOfMemory>
    ensures { (signature : List ℕ) → IfOk result (λ b. b
        ≡ file.is_required (map required_in places.now) (signed_by tx.now input key.now signature)) }
{
    let first = first_at(alloc, places, tx, input, key)?;
    Ok(first.is_some())
}

// ---- verified

// Whether a place is needed for the digest of the first, if there is one.
fn is_same(place: &Place, first: Option<&Place>) -> bool
    ensures { result ≡ agreeing.is_same (required_in place.now) (option_map required_in (option_map (λ p. p.now) first.entry)) }
{
    match first {
        Some(first) => first.digest == place.digest,
        None => true,
    }
}

// Whether it is needed for the digest of the first that is needed there.
fn is_as_first(alloc: Global, places: &Indexed<Place>, place: &Place) -> Result<bool, OutOfMemory>
    ensures { IfOk result (λ b. b ≡ agreeing.is_as_first (map required_in places.now) (required_in place.now)) }
{
    let tx = place.tx.as_slice();
    let first = first_at(alloc, places, tx, place.input, &place.key)?;
    Ok(is_same(place, first))
}

// Whether all that are needed at one place are of one digest.
fn do_agree(alloc: Global, places: &Indexed<Place>) -> Result<bool, OutOfMemory>
    ensures { IfOk result (λ b. b ≡ agreeing.do_agree (map required_in places.now)) }
{
    for place in places.as_slice() {
        if !is_as_first(alloc, places, place)? {
            return Ok(false);
        }
    }
    Ok(true)
}

// Whether this is the place of a signature.
fn is_here(place: &Place, tx: &[u8], input: u32, key: &[u8; 33]) -> bool
    ensures { (signature : List ℕ) → result ≡ spec.is_at (required_in place.now).spot (signed_by tx.now input key.now signature) }
{
    tx == place.tx.as_slice() && (input == place.input && *key == place.key)
}

// Whether a signature verifies, if it is at this place.
fn verifies_at(place: &Place, tx: &[u8], input: u32, key: &[u8; 33], signature: &[u8]) -> bool
    ensures { result ≡ file.verifies_if secp256k1 (signed_by tx.now input key.now signature.now) (required_in place.now) }
{
    if is_here(place, tx, input, key) {
        verify(key, &place.digest, signature)
    } else {
        true
    }
}

// Whether a signature verifies wherever it is needed, place by place.
fn verifies_everywhere(
    places: &[Place],
    tx: &[u8],
    input: u32,
    key: &[u8; 33],
    signature: &[u8],
) -> bool
    ensures { result ≡ file.is_verified secp256k1 (map required_in places.now) (signed_by tx.now input key.now signature.now) }
{
    for place in places {
        if !verifies_at(place, tx, input, key, signature) {
            return false;
        }
    }
    true
}

// The same, by one verification.
fn verifies_once(
    alloc: Global,
    places: &Indexed<Place>,
    tx: &[u8],
    input: u32,
    key: &[u8; 33],
    signature: &[u8],
) -> Result<bool, OutOfMemory>
    requires { agreeing.do_agree (map required_in places.now) ≡ true }
    ensures { IfOk result (λ b. b
        ≡ file.is_verified secp256k1 (map required_in places.now) (signed_by tx.now input key.now signature.now)) }
{
    let first = first_at(alloc, places, tx, input, key)?;
    match first {
        Some(first) => Ok(verify(key, &first.digest, signature)),
        None => Ok(true),
    }
}

impl Outstanding {
    /// Where signatures of these transactions are needed.
    pub(crate) fn by(
        alloc: Global,
        transactions: &[Transaction],
    ) -> Result<Outstanding, OutOfMemory>
        ensures { IfOk result (λ required. required ≡ spec.all_required transactions.now) }
    {
        let places = places_of(alloc, transactions)?;
        let agree = do_agree(alloc, &places)?;
        Ok(Outstanding { places, agree })
    }

    /// Whether a signature is needed of this input of the transaction with these bytes, by this key.
    pub(crate) fn is_required(
        &self,
        alloc: Global,
        tx: &[u8],
        input: u32,
        key: &[u8; 33],
    ) -> Result<bool, OutOfMemory>
        ensures { (signature : List ℕ) → IfOk result (λ b. b ≡ file.is_required self.now (signed_by tx.now input key.now signature)) }
    {
        is_at(alloc, &self.places, tx, input, key)
    }

    /// Whether it verifies under its key, for the digest of each transaction that needs it.
    pub(crate) fn is_verified(
        &self,
        alloc: Global,
        tx: &[u8],
        input: u32,
        key: &[u8; 33],
        signature: &[u8],
    ) -> Result<bool, OutOfMemory>
        ensures { IfOk result (λ b. b ≡ file.is_verified secp256k1 self.now (signed_by tx.now input key.now signature.now)) }
    {
        if self.agree {
            verifies_once(alloc, &self.places, tx, input, key, signature)
        } else {
            let places = self.places.as_slice();
            Ok(verifies_everywhere(places, tx, input, key, signature))
        }
    }
}
