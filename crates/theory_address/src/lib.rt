//! Theorems on addresses: each script has one, it reads back, and no word is the address of two. Each is the contract
//! of a function that does nothing.
#![tactic(auto)]

ghost use Rattle.theory_address.specs.Addresses.{AddressesAreReadBack, EachHasAddress, OneNetwork, OneScript, ReadExactly, ReadIsShort, ReadIsShown};

/// Each witness output script has an address, for every human-readable part of at most 18 characters.
pub fn each_has_address()
    ensures { EachHasAddress }
{}

/// An address is read back as the script that it is of.
pub fn addresses_are_read_back()
    ensures { AddressesAreReadBack }
{}

/// A script is read exactly where the word is its address, in small letters or in capitals.
pub fn read_exactly()
    ensures { ReadExactly }
{}

/// A word is the address of one script at most.
pub fn one_script()
    ensures { OneScript }
{}

/// The address of a script that was read is the word in small letters.
pub fn read_is_shown()
    ensures { ReadIsShown }
{}

/// A word that is read has at most 90 characters.
pub fn read_is_short()
    ensures { ReadIsShort }
{}

/// A word is an address of one network at most.
pub fn one_network()
    ensures { OneNetwork }
{}
