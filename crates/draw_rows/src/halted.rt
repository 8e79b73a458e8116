//! What a run came to.

use spec_data::Name;
use spec_run::Event;
use spec_text::Entry;

/// What halted a run behind its opening.
#[derive(Drop)]
pub enum Halted {
    Nothing,
    /// This event guesses the party's secret.
    Guesses {
        event: Event,
        party: Name,
        secret: Name,
    },
    /// Two strings have one digest after this event.
    Collides(Event),
}

/// The events of a run, each with what it came to and its steps, up to what halted it.
#[derive(Clone, Copy)]
pub enum Played<'a> {
    /// The opening collides, so nothing was played.
    Unopened,
    Opened(&'a [Entry], &'a Halted),
}
