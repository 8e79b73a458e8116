//! A name of 1 to 32 bytes, held in place.

ghost use Rattle.std.specs.Str.{bytes_eq};
ghost use Rattle.std.specs.Cmp.{partial_equiv_from_equiv};
ghost use Rattle.std.specs.Cmp.Lexicographic.{nat_list_eq_equiv};
ghost use Rattle.std.specs.Prelude.{◌≡◌, ℕ, ◌<◌, ◌≤◌, ◌↔◌, List, length, IfSome, IfNone, IsSome, IsTrue};

use crate::byte_list::end_apart;
use std::marker::Model;

/// A name of 1 to 32 bytes.
#[derive(Clone, Copy)]
pub struct Name {
    len: u8,
    room: [u8; 32],
}

impl Model for Name {
    ghost use Rattle.std.specs.Prelude.{List, ℕ};
    ghost use Rattle.std.specs.Coded.{coded_list, coded_ℕ};

    ghost Value = { List ℕ };

    ghost coded = { coded_list coded_ℕ };

    ghost use Rattle.spec_data.specs.Name.{name_bytes, IsName, name_of, name_of-name_bytes};

    ghost view = { name_bytes };

    ghost invariant = { IsName };

    ghost inverse = { name_of };

    ghost inverse_ok = { name_of-name_bytes };
}

impl PartialEq for Name {
    ghost eq = { bytes_eq };

    ghost laws = { partial_equiv_from_equiv nat_list_eq_equiv };

    fn eq(&self, other: &Name) -> bool {
        !end_apart(self.bytes(), other.bytes()) && self.bytes() == other.bytes()
    }
}

impl Eq for Name {
    ghost laws = { nat_list_eq_equiv };
}

impl Name {
    /// The name of these bytes, if they are 1 to 32.
    pub fn new(bytes: &[u8]) -> Option<Name>
        ensures some { IsSome result ↔ ((0 < length bytes.now) × (length bytes.now ≤ 32)) }
        ensures value { IfSome result (λ name. name ≡ bytes.now) }
    {
        if bytes.is_empty() || bytes.len() > 32 {
            return None;
        }
        let mut room = [0u8; 32];
        let len = bytes.len();
        room[..len].copy_from_slice(bytes);
        Some(Name {
            len: len as u8,
            room,
        })
    }

    /// The 1 to 32 bytes of the name.
    pub fn bytes(&self) -> &[u8]
        ensures bytes { result.now ≡ self.now }
        ensures some { 0 < length self.now }
        ensures few { length self.now ≤ 32 }
    {
        &self.room[..self.len as usize]
    }

    /// The two names have the same bytes.
    pub fn is_same(&self, other: &Name) -> bool
        ensures { IsTrue result ↔ (self.now ≡ other.now) }
    {
        self == other
    }
}
