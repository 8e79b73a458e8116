//! Inputs that spend deposits of wallets.

ghost use Rattle.std.specs.Prelude.{◌≡◌, option_map, true, IfOk};
ghost use Rattle.spec_deal.specs.Wallets as wallets;
ghost use Rattle.deal_compile.specs.Keyed.{keys_of};
ghost use Rattle.deal_compile.specs.Parts as spec;
ghost use Rattle.deal_compile.specs.Programs.{are_hashed};

use crate::keys::DealKeys;
use crate::programs::{Program, pays};
use bm_compile::KeySource;
use bm_hash::Hash32;
use deal_index::Indexed;
use deal_payees::pays_to_key_hash;
use spec_bitcoin::TxOut;
use spec_compiler::Spent;
use spec_data::{Bytes, Name, OutOfMemory};
use spec_deal::Wallet;
use spec_tool::Which;
use std::alloc::Global;

// The deposit that input k of a transaction of this name spends, of those that the transaction spends. The first input of a branch
// spends its position.
fn deposit_for<'a>(which: &Which, deposits: &'a [Name], k: usize) -> Option<&'a Name>
    ensures { option_map (λ name. name.now) result ≡ spec.deposit_by which.now deposits.now k }
{
    match which {
        Which::Init => deposits.get(k),
        Which::At(_) => {
            if k == 0 {
                return None;
            }
            deposits.get(k - 1)
        }
    }
}

// The wallet that brings the deposit of this name, if one does.
fn wallet_of(alloc: Global, keys: &DealKeys, name: &Name) -> Result<Option<Wallet>, OutOfMemory>
    ensures { IfOk result (λ wallet. wallet ≡ wallets.wallet_of (keys_of keys.now) name.now) }
{
    match keys.own_script(name.bytes()) {
        Some(script) => Ok(Some(Wallet {
            deposit: *name,
            script: Bytes::from_slice(alloc, script)?,
        })),
        None => Ok(None),
    }
}

/// The wallet that signs input k, if one does.
pub(crate) fn wallet_for(
    alloc: Global,
    keys: &DealKeys,
    which: &Which,
    deposits: &[Name],
    k: usize,
) -> Result<Option<Wallet>, OutOfMemory>
    ensures { IfOk result (λ wallet. wallet ≡ spec.wallet_by keys.now which.now deposits.now k) }
{
    match deposit_for(which, deposits, k) {
        Some(name) => wallet_of(alloc, keys, name),
        None => Ok(None),
    }
}

/// Whether it is known what the signature of an input signs: always without a wallet, and of a wallet where its output is for the hash
/// of a key.
pub fn has_digest(wallet: &Option<Wallet>) -> bool
    ensures { result ≡ wallets.has_digest wallet.now }
{
    match wallet {
        Some(wallet) => pays_to_key_hash(wallet.script.as_slice()),
        None => true,
    }
}

/// The digest, where it is known that a signature signs it.
pub(crate) fn digest_for(wallet: &Option<Wallet>, digest: &[u8; 32]) -> [u8; 32]
    ensures { result ≡ spec.digest_by wallet.now digest.now }
{
    if has_digest(wallet) { *digest } else { [0; 32] }
}

/// The output that an input spends: a wallet's, or that of the script.
pub(crate) fn output_for<H: Hash32>(
    alloc: Global,
    hasher: &H,
    programs: &Indexed<Program>,
    wallet: &Option<Wallet>,
    spent: &Spent,
) -> Result<TxOut, OutOfMemory>
    requires { are_hashed (H.digest_of hasher.now) programs.now ≡ true }
    ensures { IfOk result (λ output. output ≡ wallets.spent_output (H.digest_of hasher.now) wallet.now spent.now) }
{
    match wallet {
        Some(wallet) => Ok(TxOut {
            value: spent.value,
            script: wallet.script.copy(alloc)?,
        }),
        None => pays(
            alloc,
            hasher,
            programs,
            spent.script.as_slice(),
            spent.value,
        ),
    }
}
