//! Test vectors of ECDSA: published signatures and keys, and numbers at their bounds, computed from the definitions.
//! They show that `spec_curve` defines the curve that Bitcoin uses.
#![tactic(auto)]

ghost use Rattle.theory_signatures.specs.Multiples.{MultiplesOfBase};
ghost use Rattle.theory_signatures.specs.Keys.{KeysAndPoints};
ghost use Rattle.theory_signatures.specs.Published.{PublishedSignatures};
ghost use Rattle.theory_signatures.specs.Vectors.{PublishedVectors, NumbersAtBounds};

/// Small multiples of the base point, its multiple by the order, and sums of equal and of opposite points.
pub fn multiples_of_base()
    ensures { MultiplesOfBase }
{}

/// The first coordinates from 1 to 11 that belong to points, the two keys of the base point, and bytes that are no key.
pub fn keys_and_points()
    ensures { KeysAndPoints }
{}

/// The signatures that BIP 143 publishes verify, and none does with another digest, key, R or S.
pub fn published_signatures()
    ensures { PublishedSignatures }
{}

/// Published vectors in the format of NIST verify, and none does with R and S exchanged.
pub fn published_vectors()
    ensures { PublishedVectors }
{}

/// What verifies and what does not where digest, R and S are at their bounds, and where a sum is infinity or doubles.
pub fn numbers_at_bounds()
    ensures { NumbersAtBounds }
{}
