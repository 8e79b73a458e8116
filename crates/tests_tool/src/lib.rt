//! Tests of the whole program over files and an output in memory, of what no contract says: that calls succeed if
//! memory suffices, and test vectors where a read or write fails or two messages have one digest. All other runs are
//! played by .ci/run.
#![tactic(auto)]

#[cfg(test)]
mod calls;
#[cfg(test)]
mod collisions;
#[cfg(test)]
mod commands;
#[cfg(test)]
mod failures;
