//! Writes the rows of a run and its contracts as SVG, as they stand at the end.
#![tactic(auto)]

mod assets;
mod columns;
mod conditions;
mod elements;
mod ending;
mod flow;
mod items;
mod money;
mod placing;
mod runs;
mod sizes;
mod sums;
mod svg;
mod ways;

pub use svg::write_svg;
