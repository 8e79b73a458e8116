//! The fingerprints of byte strings: numbers that nearly always tell them apart.

ghost use Rattle.std.specs.Prelude.{◌≡◌};
ghost use Rattle.bm_hash.specs.Fingerprints as spec;

// A number mixed into a fingerprint, as XXH64 does it: a product spreads bits upwards alone, so the turn between the two brings the highest down.
#[tactic(auto, unfolding(crate::specs::Fingerprints::mixed))]
fn mixed(fingerprint: u64, number: u64) -> u64
    ensures { result ≡ spec.mixed fingerprint number }
{
    fingerprint
        .wrapping_add(number.wrapping_mul(0xC2B2_AE3D_27D4_EB4F))
        .rotate_left(31)
        .wrapping_mul(0x9E37_79B1_85EB_CA87)
}

/// The fingerprint of a byte string: its length, its words of eight bytes and the bytes behind them, mixed in turn.
#[tactic(auto, unfolding(crate::specs::Fingerprints::fingerprint_of))]
pub fn fingerprint_of(bytes: &[u8]) -> u64
    ensures { result ≡ spec.fingerprint_of bytes.now }
{
    let (words, rest) = bytes.as_chunks::<8>();
    let mut fingerprint = bytes.len() as u64;
    for word in words {
        fingerprint = mixed(fingerprint, u64::from_le_bytes(*word));
    }
    for byte in rest {
        fingerprint = mixed(fingerprint, u64::from(*byte));
    }
    fingerprint
}
