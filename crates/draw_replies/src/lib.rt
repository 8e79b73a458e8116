//! What is replied to who asks for a run with its contracts, as a page or as SVG, or for the page of a contract alone.
#![tactic(auto)]

mod form;
mod playing;
mod replying;
mod writing;

pub use form::Form;
pub use replying::drawn_texts;
