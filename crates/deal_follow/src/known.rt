//! The transactions of a deal, each found by its bytes.

ghost use Rattle.std.specs.Prelude.{◌≡◌, map, option_map, slice_get, IfOk};
ghost use Rattle.std.specs.List.{find};
ghost use Rattle.spec_deal.specs.SignatureFile.{has_bytes};
ghost use Rattle.deal_follow.specs.Boards.{known_in, numbered};

use deal_index::{Indexed, Keyed};
use spec_data::{Bytes, OutOfMemory};
use spec_deal::Transaction;
use std::alloc::Global;

/// The number of a transaction, found by its bytes.
pub(crate) struct Known {
    pub(crate) bytes: Bytes,
    pub(crate) number: usize,
}

impl Drop for Known {
    fn drop(self) {
        let Known {
            bytes: _,
            number: _,
        } = self;
    }
}

impl Keyed for Known {
    ghost use Rattle.std.specs.Prelude.{true};

    ghost key_of = { λ known. known.bytes };

    ghost is_sized = { λ _. true };
}

/// The transactions, each found by its bytes.
pub(crate) fn known_by(
    alloc: Global,
    transactions: &[Transaction],
) -> Result<Indexed<Known>, OutOfMemory>
    ensures { IfOk result (λ known. map known_in known ≡ numbered 0 transactions.now) }
{
    let mut known = Indexed::new(alloc);
    for (number, transaction) in transactions.iter().enumerate() {
        let found_by = Vec::from_slice(alloc, transaction.bytes.as_slice())?;
        let bytes = transaction.bytes.copy(alloc)?;
        known.push(Known { bytes, number }, found_by)?;
    }
    Ok(known)
}

// The transaction of a number.
fn transaction_at(transactions: &[Transaction], number: usize) -> Option<&Transaction>
    ensures { option_map (λ t. t.now) result ≡ slice_get transactions.now number }
{
    transactions.get(number)
}

/// The first of the transactions that has these bytes.
pub(crate) fn transaction_of<'a>(
    transactions: &'a [Transaction],
    known: &Indexed<Known>,
    bytes: &[u8],
) -> Option<&'a Transaction>
    requires { map known_in known.now ≡ numbered 0 transactions.now }
    ensures { option_map (λ t. t.now) result ≡ find (has_bytes bytes.now) transactions.now }
{
    match known.find(bytes) {
        Some(found) => transaction_at(transactions, found.number),
        None => None,
    }
}
