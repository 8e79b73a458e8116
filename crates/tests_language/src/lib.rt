//! Tests of the crates on texts and terms, of what no contract says: that their calls succeed where memory is ample.
//! What texts and contracts are answered is shown on the built program.
#![tactic(auto)]

#[cfg(test)]
mod nodes;
#[cfg(test)]
mod terms;
#[cfg(test)]
mod texts;
