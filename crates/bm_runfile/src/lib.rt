//! Reads run files, and writes their lines in canonical form. It gives the run that the lines spell, or the first line
//! that is bad, too long or one too many.
#![tactic(auto)]

mod error;
mod event_words;
mod events;
mod header;
mod labels;
mod limits;
mod lines;
mod paths;
mod pieces;
mod print;
mod read;
mod refusals;
mod words;

pub use error::{RunError, WordError};
pub use limits::run_limits_are_defined;
pub use lines::{first_line, words_of};
pub use paths::read_path;
pub use pieces::{
    put_advertise, put_bindings, put_branch, put_byte, put_contract_party, put_named, put_output,
    put_outputs, put_party_name, put_share, put_spaced_output, put_word_name, put_word_number,
};
pub use print::{print_event, print_header, put_event};
pub use read::read_run;
pub use refusals::{put_refusal, refusal_name};
pub use spec_run::{Event, Header, HeldSecret, Run};
pub use spec_text::RunLimit;
pub use words::{a_name, digest, one_of, read_bytes, small};
