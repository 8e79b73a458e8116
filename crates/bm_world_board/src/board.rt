//! What the parties see: the outputs, the signatures, and what they have told each other.

ghost use Rattle.std.specs.Prelude.{◌≡◌, option_map, slice_get};
ghost use Rattle.spec_data.specs.Lists.{is_among, has_number};
ghost use Rattle.spec_run.specs.Setup.{people_of};
ghost use Rattle.bm_world_board.specs.Compiling.{compiled_at};

use crate::accounts::Account;
use bm_book::Book;
use bm_compile::Compiled;
use bm_exchange::{Exchange, Strings};
use bm_wellformed::Checked;
use bm_world_coins::Coins;
use spec_data::{Name, Seq};
use spec_run::Header;

/// The world but for its messages, with what never changes.
pub struct Board {
    pub header: Header,
    /// The contracts by their number.
    pub contracts: Seq<Checked>,
    pub coins: Coins,
    pub book: Book,
    pub exchange: Exchange,
    /// Those of the declared parties, in order.
    pub accounts: Seq<Account>,
    /// The bytes of the header's secrets, in order, with an index.
    pub known: Strings,
    /// The contracts whose initial transaction was accepted.
    pub begun: Seq<u32>,
    /// What the contracts are compiled to by their number, `None` where not all participants have committed.
    pub compiled: Seq<Option<Compiled>>,
}

impl Drop for Board {
    fn drop(self) {
        let Board {
            header: _,
            contracts: _,
            coins: _,
            book: _,
            exchange: _,
            accounts: _,
            known: _,
            begun: _,
            compiled: _,
        } = self;
    }
}

/// Whether the name is one of these.
pub fn is_name_among(names: &[Name], name: &Name) -> bool
    ensures { result ≡ is_among name.now names.now }
{
    names.iter().any(|n| *n == *name)
}

impl Board {
    /// The contract of this number.
    pub fn contract(&self, contract: u32) -> Option<&Checked>
        ensures { option_map (λ c. c.now) result ≡ slice_get self.now.contracts contract }
    {
        self.contracts.as_slice().get(contract as usize)
    }

    /// What the contract of this number is compiled to, where it is.
    pub fn compiled(&self, contract: u32) -> Option<&Compiled>
        ensures { option_map (λ c. c.now) result ≡ compiled_at self.now.compiled contract }
    {
        match self.compiled.as_slice().get(contract as usize) {
            Some(Some(compiled)) => Some(compiled),
            _ => None,
        }
    }

    /// The header, taken out. The other parts are dropped.
    pub fn into_header(self) -> Header
        ensures { result ≡ self.header }
    {
        let Board {
            header,
            contracts: _,
            coins: _,
            book: _,
            exchange: _,
            accounts: _,
            known: _,
            begun: _,
            compiled: _,
        } = self;
        header
    }

    /// Whether the party is honest.
    pub fn is_honest(&self, party: &Name) -> bool
        ensures { result ≡ is_among party.now self.now.header.honest }
    {
        is_name_among(self.header.honest.as_slice(), party)
    }

    /// Whether the party takes part in the contract.
    pub fn takes_part(&self, contract: u32, party: &Name) -> bool
        ensures { result ≡ is_among party.now (people_of (slice_get self.now.contracts contract)) }
    {
        match self.contract(contract) {
            Some(checked) => is_name_among(checked.parties(), party),
            None => false,
        }
    }

    /// Whether the contract's initial transaction was accepted. There are at most 16 contracts.
    pub fn has_begun(&self, contract: u32) -> bool
        ensures { result ≡ has_number contract self.now.begun }
    {
        self.begun.as_slice().contains(&contract)
    }
}
