//! The one clause of `run_tool`, and the call that writes a reply and ends with its status. Whoever asks what `bitml`
//! promises reads `specs/Headline.antt`.
#![tactic(auto)]

mod theorem;

pub use theorem::answers_are_headlines;
