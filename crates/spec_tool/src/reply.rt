//! What a call replies.

ghost use Rattle.std.specs.Prelude.{◌≡◌};

use spec_data::Bytes;

/// A status, and the text that is to be written with it.
#[derive(Drop)]
pub struct Reply {
    pub status: u8,
    pub text: Bytes,
}

impl Reply {
    /// The reply of a status and a text.
    pub fn new(status: u8, text: Vec<u8>) -> Self
        ensures status { result.status ≡ status }
        ensures text { result.text ≡ text.items }
    {
        Self {
            status,
            text: Bytes::of(text),
        }
    }
}
