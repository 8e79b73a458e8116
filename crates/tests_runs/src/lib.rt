//! Tests of the crates on runs, of what no contract says: that calls succeed with ample memory, and that the
//! definitions give what was worked out by hand. Whole runs are played by the built program, as .ci/run says.
#![tactic(auto)]

#[cfg(test)]
mod copies;
#[cfg(test)]
mod exchange;
#[cfg(test)]
mod made;
#[cfg(test)]
mod report;
#[cfg(test)]
mod run_files;
#[cfg(test)]
mod timed_commitment;
