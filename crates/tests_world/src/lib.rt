//! Tests of the crates that play a run, of what no contract says: that calls succeed if memory suffices, test vectors,
//! and what is left if an allocation fails. Whole runs are played by .ci/run.
#![tactic(auto)]

#[cfg(test)]
mod collisions;
#[cfg(test)]
mod foretold;
#[cfg(test)]
mod live_outputs;
#[cfg(test)]
mod next_steps;
#[cfg(test)]
mod short_memory;
#[cfg(test)]
mod shown;
#[cfg(test)]
mod worlds;
