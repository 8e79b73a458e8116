//! How a run ends.

use bm_calculus::Config;
use spec_data::{Bytes, Name, Seq};
use spec_run::Event;

/// How a run ends.
#[derive(Drop)]
pub enum Ending {
    /// All events were played: the height in blocks, the live outputs with their values in satoshi, the last
    /// configuration, and the events of its offers.
    Whole {
        tip: u32,
        live: Seq<(u32, u64)>,
        config: Config,
        offers: Seq<Event>,
    },
    /// This event guesses a secret.
    Guessed {
        event: Event,
        party: Name,
        secret: Name,
    },
    /// The opening or this event collides: two different strings have one digest, the earlier first.
    Collided {
        event: Option<Event>,
        first: Bytes,
        second: Bytes,
    },
}
