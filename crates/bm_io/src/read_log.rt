//! The reads of files as proofs alone see them. It takes no memory, and its methods do nothing at run time.

ghost use Rattle.std.specs.Prelude.{◌≡◌, List, [], ◌∷◌, ◌++◌};
ghost use Rattle.std.specs.Borrow.{ftrue};
ghost use Rattle.bm_io.specs.Logs.{Reply, reply_of};
ghost use Rattle.bm_io.specs.Files.{shown};

use crate::files::ReadError;
use std::marker::Model;

/// The reads so far, with what each answered.
#[derive(Drop)]
pub struct ReadLog {
    pub ghost replies: { List Reply },
}

impl Model for ReadLog {
    ghost also_owns = { λ _. ftrue };
}

/// A read and what it answers.
#[derive(Clone, Copy, Drop)]
pub struct NewReply<'a> {
    pub name: &'a str,
    pub limit: usize,
    pub answer: &'a Result<Vec<u8>, ReadError>,
}

impl<'a> NewReply<'a> {
    /// The read of this name, with at most so many bytes, and its answer.
    pub fn of(name: &'a str, limit: usize, answer: &'a Result<Vec<u8>, ReadError>) -> NewReply<'a>
        ensures name { result.name.now ≡ name.now }
        ensures limit { result.limit ≡ limit }
        ensures answer { result.answer.now ≡ answer.now }
    {
        NewReply {
            name,
            limit,
            answer,
        }
    }
}

impl ReadLog {
    /// No read yet.
    pub fn new() -> ReadLog
        ensures { result.replies ≡ [] }
    {
        ReadLog {}
    }

    /// One read more.
    pub fn and(&self, _new: &NewReply<'_>) -> ReadLog
        ensures { result.replies ≡ self.now.replies ++ reply_of _new.now.name.now _new.now.limit (shown (λ v. v.items) _new.now.answer.now) ∷ [] }
    {
        ReadLog {}
    }
}
