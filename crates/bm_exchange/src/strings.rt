//! Whether two strings are the same.

ghost use Rattle.std.specs.Prelude.{◌≡◌};
ghost use Rattle.std.specs.Str.{bytes_eq};

use spec_data::end_apart;

/// Whether two strings are the same. Of many most end otherwise.
pub fn are_same(one: &[u8], other: &[u8]) -> bool
    ensures { result ≡ bytes_eq one.now other.now }
{
    !end_apart(one, other) && one == other
}
