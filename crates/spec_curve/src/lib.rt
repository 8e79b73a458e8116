//! The definition of the curve secp256k1 and of ECDSA over natural numbers. What `deal` says of signatures is said by
//! it.
#![tactic(auto)]
