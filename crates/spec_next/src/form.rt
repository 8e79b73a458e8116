//! The two forms of what comes next.

/// How it is printed.
#[derive(Clone, Copy)]
pub enum Form {
    /// In lines, for people.
    Lines,
    /// As one line of JSON, for programs.
    Json,
}
