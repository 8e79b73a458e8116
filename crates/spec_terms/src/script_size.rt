//! How large a script is.

/// The bytes of a script, and its operations that Bitcoin counts.
#[derive(Clone, Copy, PartialEq, Eq, Debug)]
pub struct ScriptSize {
    pub bytes: u64,
    pub operations: u64,
}
