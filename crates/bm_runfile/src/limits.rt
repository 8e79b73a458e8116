//! How long the lines of a run file are, and how many of each kind there may be.

ghost use Rattle.std.specs.Prelude.{◌≡◌};
ghost use Rattle.spec_data.specs.Ranges.{most_parties, most_header_deposits, most_header_secrets};
ghost use Rattle.spec_text.specs.Limits.{most_line_bytes};

/// The bytes that a line may have, without its end.
pub(crate) const MOST_LINE_BYTES: usize = 1_048_576;

/// The parties that a header declares at most.
pub(crate) const MOST_PARTIES: usize = 64;

/// The secrets that a header has at most.
pub(crate) const MOST_SECRETS: usize = 1_000;

/// The deposits that a header has at most.
pub(crate) const MOST_DEPOSITS: usize = 1_000;

/// The numbers are those of the definitions.
pub fn run_limits_are_defined()
    ensures line { MOST_LINE_BYTES ≡ most_line_bytes }
    ensures parties { MOST_PARTIES ≡ most_parties }
    ensures secrets { MOST_SECRETS ≡ most_header_secrets }
    ensures deposits { MOST_DEPOSITS ≡ most_header_deposits }
{}
