//! Deals: what real wallets give to a contract.

ghost use Rattle.std.specs.Prelude.{◌≡◌, IfOk};

use spec_bitcoin::{Label, OutPoint};
use spec_data::{Bytes, Name, OutOfMemory, Seq};
use std::alloc::Global;

/// What a line of a deal file gives: what a contract needs of wallets, and what wallets may say besides.
pub enum Needed {
    /// The public key of this label.
    Key(Label),
    /// The place of the deposit of this name.
    Deposit(Name),
    /// The hash of the secret of this name.
    Hash(Name),
    /// The network of addresses. No contract needs it.
    Network,
    /// Where this participant is paid. No contract needs it.
    Payee(Name),
}

impl Drop for Needed {
    fn drop(self) {
        match self {
            Needed::Key(_)
            | Needed::Deposit(_)
            | Needed::Hash(_)
            | Needed::Network
            | Needed::Payee(_) => {}
        }
    }
}

/// What was given, each in the order in which the contract needs it: compressed public keys, places of deposits on
/// the network, and hashes of secrets; the human-readable part of addresses on the network (BIP 173); the output scripts
/// of the deposits that wallets bring; and the output scripts where participants are paid, of those who gave one. A key
/// that the deal doesn't use may not be there.
pub struct Deal {
    pub keys: Seq<(Label, [u8; 33])>,
    pub deposits: Seq<(Name, OutPoint)>,
    pub hashes: Seq<(Name, [u8; 32])>,
    pub network: Option<Name>,
    pub wallets: Seq<(Name, Bytes)>,
    pub payees: Seq<(Name, Bytes)>,
}

impl Drop for Deal {
    fn drop(self) {
        let Deal {
            keys: _,
            deposits: _,
            hashes: _,
            network: _,
            wallets: _,
            payees: _,
        } = self;
    }
}

impl Needed {
    /// An equal one.
    pub fn copy(&self, alloc: Global) -> Result<Needed, OutOfMemory>
        ensures { IfOk result (λ needed. needed ≡ self.now) }
    {
        Ok(match self {
            Needed::Key(label) => Needed::Key(label.copy(alloc)?),
            Needed::Deposit(name) => Needed::Deposit(*name),
            Needed::Hash(name) => Needed::Hash(*name),
            Needed::Network => Needed::Network,
            Needed::Payee(party) => Needed::Payee(*party),
        })
    }
}
