//! A byte string that owns its memory.

ghost use Rattle.std.specs.Str.{bytes_eq};
ghost use Rattle.std.specs.Prelude.{◌≡◌, true, false, ◌≤◌, List, ℕ, IfOk, length};
ghost use Rattle.spec_data.specs.ByteList.{bytes_in};

use std::alloc::{AllocError, Global};
use std::marker::Model;

/// Out of memory.
pub type OutOfMemory = AllocError;

/// Whether two byte strings differ in their length or in their last byte: most that differ are told apart so.
#[inline(always)]
pub fn end_apart(one: &[u8], other: &[u8]) -> bool
    ensures { result ≡ true → bytes_eq one.now other.now ≡ false }
{
    one.len() != other.len() || one.last() != other.last()
}

// Up to so many bytes stand in place. The script of a deposit has 34, the one that it pays to 35, a digest 32.
const PLACE: usize = 38;

// Where the bytes stand: a few of them in place, which takes no memory, or all in a vector.
#[derive(Debug)]
enum Room {
    Place { len: u8, bytes: [u8; PLACE] },
    Vector(Vec<u8>),
}

impl Drop for Room {
    fn drop(self) {
        match self {
            Room::Place { len: _, bytes: _ } | Room::Vector(_) => {}
        }
    }
}

/// A byte string, which contracts see as the list of its bytes.
#[derive(Debug)]
pub struct Bytes {
    room: Room,
}

impl Model for Bytes {
    ghost use Rattle.std.specs.Prelude.{List, ℕ};
    ghost use Rattle.spec_data.specs.ByteList.{bytes_in};

    ghost Value = { List ℕ };

    ghost view = { λ b. bytes_in b.room };
}

impl Drop for Bytes {
    fn drop(self) {
        let Bytes { room: _ } = self;
    }
}

// A few bytes, in place.
#[tactic(auto, unfolding(crate::specs::ByteList::bytes_in))]
fn in_place(bytes: &[u8]) -> Room
    requires { length bytes.now ≤ 38 }
    ensures { bytes_in result ≡ bytes.now }
{
    let mut place = [0u8; PLACE];
    let len = bytes.len();
    place[..len].copy_from_slice(bytes);
    Room::Place {
        len: len as u8,
        bytes: place,
    }
}

impl Bytes {
    /// The bytes of a vector.
    #[tactic(auto, unfolding(crate::specs::ByteList::bytes_in))]
    pub fn of(list: Vec<u8>) -> Bytes
        ensures { result ≡ list.items }
    {
        Bytes {
            room: Room::Vector(list),
        }
    }

    /// The bytes of a slice. A few of them take no memory.
    pub fn from_slice(alloc: Global, bytes: &[u8]) -> Result<Bytes, OutOfMemory>
        ensures { IfOk result (λ b. b ≡ bytes.now) }
    {
        if bytes.len() <= PLACE {
            return Ok(Bytes {
                room: in_place(bytes),
            });
        }
        Ok(Bytes::of(Vec::from_slice(alloc, bytes)?))
    }

    /// The bytes in order.
    #[tactic(auto, unfolding(crate::specs::ByteList::bytes_in))]
    pub fn as_slice(&self) -> &[u8]
        ensures { result.now ≡ self.now }
    {
        match &self.room {
            Room::Place { len, bytes } => match bytes.get(..*len as usize) {
                Some(prefix) => prefix,
                None => bytes,
            },
            Room::Vector(list) => list.as_slice(),
        }
    }

    /// An equal byte string.
    pub fn copy(&self, alloc: Global) -> Result<Bytes, OutOfMemory>
        ensures { IfOk result (λ b. b ≡ self.now) }
    {
        Bytes::from_slice(alloc, self.as_slice())
    }
}
