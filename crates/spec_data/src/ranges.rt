//! How far amounts and heights go and how long an item may be, by the rules of Bitcoin, and how large a secret and a run may be.

ghost use Rattle.std.specs.Prelude.{◌≡◌};
ghost use Rattle.spec_data.specs.Ranges.{max_money, last_height, most_item_bytes, least_secret_bytes, most_text_bytes, most_run_bytes, most_events};

/// The most satoshi that there are.
pub const MAX_MONEY: u64 = 2_100_000_000_000_000;

/// The greatest height that a lock time can name; from the next number on it names a time.
pub const LAST_HEIGHT: u32 = 499_999_999;

/// The most bytes of an item of a witness, and of a push; a secret has no more.
pub const MOST_ITEM_BYTES: usize = 520;

/// The fewest bytes of a secret.
pub const LEAST_SECRET_BYTES: usize = 16;

/// The bytes that a contract's text may have.
pub const MOST_TEXT_BYTES: usize = 1_048_576;

/// The bytes that a run file may have.
pub const MOST_RUN_BYTES: usize = 8_388_608;

/// The events that a run may have.
pub const MOST_EVENTS: usize = 10_000;

/// The numbers are those of the definitions.
pub fn numbers_are_defined()
    ensures money { MAX_MONEY ≡ max_money }
    ensures height { LAST_HEIGHT ≡ last_height }
    ensures item { MOST_ITEM_BYTES ≡ most_item_bytes }
    ensures secret { LEAST_SECRET_BYTES ≡ least_secret_bytes }
    ensures text { MOST_TEXT_BYTES ≡ most_text_bytes }
    ensures run { MOST_RUN_BYTES ≡ most_run_bytes }
    ensures events { MOST_EVENTS ≡ most_events }
{}
