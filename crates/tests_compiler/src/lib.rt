//! Tests of the compiler and the crates around it, of what no contract says: test vectors on which two other programs
//! agree, and that calls succeed if memory suffices.
#![tactic(auto)]

#[cfg(test)]
mod contracts;
#[cfg(test)]
mod fees;
#[cfg(test)]
mod gates;
#[cfg(test)]
mod keys;
#[cfg(test)]
mod matches;
#[cfg(test)]
mod nodes;
#[cfg(test)]
mod posted;
#[cfg(test)]
mod sizes;
#[cfg(test)]
mod strategies;
#[cfg(test)]
mod vectors;
#[cfg(test)]
mod weights;
#[cfg(test)]
mod witnesses;
