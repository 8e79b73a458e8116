//! Whether a signature is spelled as nodes relay it: strict DER (BIP 66), a low S (BIP 146), and the
//! byte 01 of the hash type ALL behind it.

ghost use Rattle.std.specs.Prelude.{◌≡◌};
ghost use Rattle.spec_curve.specs.Signature as spec;

use crate::layout::{is_laid_out, r_bytes, s_bytes};
use crate::numbers::{is_low, is_number};

/// Whether bytes spell an R and an S, which is at most half the order.
pub(crate) fn is_spelled(signature: &[u8]) -> bool
    ensures { result ≡ spec.is_spelled signature.now }
{
    let r = r_bytes(signature);
    let s = s_bytes(signature);
    if !is_number(r) {
        return false;
    }
    if !is_number(s) {
        return false;
    }
    if !is_low(s) {
        return false;
    }
    is_laid_out(signature, r, s)
}
