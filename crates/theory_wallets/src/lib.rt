//! Theorems on deals with the coins of any wallet: what is shown of them, who signs what, and of what is warned. Each is the
//! contract of a function that does nothing.
#![tactic(auto)]

ghost use Rattle.theory_wallets.specs.Addresses.{AddressesOfDeals};
ghost use Rattle.theory_wallets.specs.Dust.{WarnsOfValues};
ghost use Rattle.theory_wallets.specs.ForWallets.{ForWallets};
ghost use Rattle.theory_wallets.specs.Networks.{NetworksAddAddresses};
ghost use Rattle.theory_wallets.specs.Ready.{PartiesEndorse, ReadyAndMissing};
ghost use Rattle.theory_wallets.specs.Shown.{DealsAreShown};

use theory_address::{addresses_are_read_back, each_has_address, read_exactly, read_is_shown};

/// Each address that is shown is read back as the script beside it, and each that a deal file gives is shown again in
/// small letters.
pub fn addresses_of_deals()
    ensures { AddressesOfDeals }
{
    each_has_address();
    addresses_are_read_back();
    read_exactly();
    read_is_shown();
}

/// A network adds addresses and payees to a plan, and changes nothing else.
pub fn networks_add_addresses()
    ensures { NetworksAddAddresses }
{}

/// In files for signers a wallet is told what its input spends alone; all other inputs have their scripts and hash types.
pub fn for_wallets()
    ensures { ForWallets }
{}

/// `ready` and `missing` end with the same line, which says that the start may be signed exactly where it may.
pub fn ready_and_missing()
    ensures { ReadyAndMissing }
{}

/// A party endorses the transactions that ask for its endorsement, in the order of the plan, and never the initial one.
pub fn parties_endorse()
    ensures { PartiesEndorse }
{}

/// Outputs are dust below 3 satoshi for each byte of making and spending them; fees are low below 1 for each virtual byte.
pub fn warns_of_values()
    ensures { WarnsOfValues }
{}

/// What is shown of a deal are its transactions with their outputs and inputs in order, and each output is what is said of it.
pub fn deals_are_shown()
    ensures { DealsAreShown }
{}
