//! The byte strings by which needs and values are found.

ghost use Rattle.std.specs.Prelude.{◌≡◌, ◌∷◌, true, IfOk};
ghost use Rattle.deal_file.specs.Keying as spec;

use bm_keys::label_behind;
use bm_text::put;
use bm_tx::put_word;
use deal_index::Keyed;
use spec_bitcoin::OutPoint;
use spec_data::OutOfMemory;
use spec_deal::{Entry, Needed, Value};
use std::alloc::Global;

/// What is needed, found by its kind and its text.
pub(crate) struct Need {
    pub(crate) needed: Needed,
}

/// What a line gives, found by what it is given to.
pub(crate) struct Given {
    pub(crate) entry: Entry,
}

/// A value that a line gives, found by its kind and its bytes.
pub(crate) struct Worth {
    pub(crate) line: u32,
    pub(crate) value: Value,
}

impl Drop for Need {
    fn drop(self) {
        let Need { needed: _ } = self;
    }
}

impl Drop for Given {
    fn drop(self) {
        let Given { entry: _ } = self;
    }
}

impl Drop for Worth {
    fn drop(self) {
        let Worth { line: _, value: _ } = self;
    }
}

impl Keyed for Need {
    ghost use Rattle.std.specs.Prelude.{true};
    ghost use Rattle.deal_file.specs.Keying.{need_key};

    ghost key_of = { λ need. need_key need.needed };

    ghost is_sized = { λ _. true };
}

impl Keyed for Given {
    ghost use Rattle.std.specs.Prelude.{true};
    ghost use Rattle.deal_file.specs.Keying.{need_key};

    ghost key_of = { λ given. need_key given.entry.needed };

    ghost is_sized = { λ _. true };
}

impl Keyed for Worth {
    ghost use Rattle.deal_file.specs.Keying.{value_key, is_sized};

    ghost key_of = { λ worth. value_key worth.value };

    ghost is_sized = { λ worth. is_sized worth.value };
}

// A byte, and a byte string behind it.
pub(crate) fn kind_and(alloc: Global, kind: u8, bytes: &[u8]) -> Result<Vec<u8>, OutOfMemory>
    ensures { IfOk result (λ key. key.items ≡ kind ∷ bytes.now) }
{
    let mut key = Vec::with_capacity(alloc, bytes.len() + 1)?;
    key.push(kind)?;
    put(&mut key, bytes)?;
    Ok(key)
}

/// What a need is found by.
pub(crate) fn need_key(alloc: Global, needed: &Needed) -> Result<Vec<u8>, OutOfMemory>
    ensures { IfOk result (λ key. key.items ≡ spec.need_key needed.now) }
{
    match needed {
        Needed::Key(label) => label_behind(alloc, b'K', label),
        Needed::Deposit(name) => kind_and(alloc, b'D', name.bytes()),
        Needed::Hash(name) => kind_and(alloc, b'H', name.bytes()),
        Needed::Network => kind_and(alloc, b'N', &[]),
        Needed::Payee(party) => kind_and(alloc, b'P', party.bytes()),
    }
}

/// Whether a value may be given once alone. Many may be paid at one script.
pub(crate) fn is_unique(value: &Value) -> bool
    ensures { result ≡ spec.is_unique value.now }
{
    match value {
        Value::Key(_) => true,
        Value::Place(_) => true,
        Value::Wallet(_, _) => true,
        Value::Hash(_) => true,
        Value::Network(_) => false,
        Value::Script(_) => false,
    }
}

// What the place of a deposit is found by, whoever brings it.
fn place_key(alloc: Global, outpoint: &OutPoint) -> Result<Vec<u8>, OutOfMemory>
    ensures { IfOk result (λ key. key.items ≡ spec.place_key outpoint.now) }
{
    let mut bytes = Vec::new(alloc);
    put_word(&mut bytes, outpoint.vout)?;
    put(&mut bytes, &outpoint.txid)?;
    kind_and(alloc, b'D', &bytes)
}

/// What a value is found by.
pub(crate) fn value_key(alloc: Global, value: &Value) -> Result<Vec<u8>, OutOfMemory>
    ensures { IfOk result (λ key. key.items ≡ spec.value_key value.now) }
{
    match value {
        Value::Key(bytes) => kind_and(alloc, b'K', bytes),
        Value::Place(outpoint) => place_key(alloc, outpoint),
        Value::Wallet(outpoint, _) => place_key(alloc, outpoint),
        Value::Hash(bytes) => kind_and(alloc, b'H', bytes),
        Value::Network(hrp) => kind_and(alloc, b'N', hrp.bytes()),
        Value::Script(bytes) => kind_and(alloc, b'S', bytes.as_slice()),
    }
}
