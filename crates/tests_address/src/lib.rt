//! Tests of addresses, of what no contract says: that definition and code give the addresses that BIP 173 and BIP 350
//! publish as good and refuse those that they publish as bad, and that each call succeeds where memory is ample.
#![tactic(auto)]

#[cfg(test)]
mod bad;
#[cfg(test)]
mod good;
#[cfg(test)]
mod scripts;
