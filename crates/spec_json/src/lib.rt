//! The definition of JSON (RFC 8259) as programs of this repository print it: values, and the line that has one. Values,
//! what is written of them and what is read back are those of `serde_json`.
#![tactic(auto)]
