//! Makes the rows of a run and its contracts: the plain data that pages are written from.
#![tactic(auto)]

mod awaited;
mod balances;
mod conditions;
mod ends;
mod event_words;
mod figures;
mod fold_words;
mod folds;
mod going;
mod halted;
mod lines;
mod looks;
mod moments;
mod openings;
mod outlooks;
mod payments;
mod picture;
mod places;
mod possible;
mod predicates;
mod reasons;
mod row;
mod rows;
mod setting;
mod standing;
mod thinning;
mod view;
mod ways;
mod words;

pub use halted::{Halted, Played};
pub use picture::{contract_lines, picture_of, sheet_of};
