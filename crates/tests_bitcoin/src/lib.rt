//! Tests of the crates for hashes, transactions, scripts, keys and the ledger, of what no contract says: published
//! values, that calls succeed if memory suffices, and that no look-up searches from the beginning.
#![tactic(auto)]

#[cfg(test)]
mod branches;
#[cfg(test)]
mod digests;
#[cfg(test)]
mod files;
#[cfg(test)]
mod hashing;
#[cfg(test)]
mod keys;
#[cfg(test)]
mod ledger;
#[cfg(test)]
mod psbt;
#[cfg(test)]
mod scripts;
#[cfg(test)]
mod transactions;
