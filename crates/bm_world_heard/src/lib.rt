//! What asking a world does to it: nothing, except that more strings are hashed. Audits and `bitml next` ask so; there
//! are only definitions and lemmas here, which both use.
#![tactic(auto)]
