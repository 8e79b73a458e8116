//! The call of a program.

ghost use Rattle.std.specs.Prelude.{◌≡◌, ℕ, List, [], length, map, Option, Some, None, IfOk};
ghost use Rattle.spec_tool.specs.Commands.{Printed, prints};
ghost use Rattle.spec_tool.specs.Reads.{Asked, Text};
ghost use Rattle.spec_tool.specs.Replies.{printed};
ghost use Rattle.tool_shell.specs.Asked.{asked};

use bm_hash::Hash32;
use spec_data::{Bytes, OutOfMemory};
use spec_tool::Reply;
use std::alloc::Global;

/// What words ask a program for.
pub trait Call {
    /// What is known of a call that words are.
    ghost is_served: { Self → Type 0 };

    /// The files that it asks for.
    ghost asks: { Self → List Asked };

    /// What it answers to the texts of its files, by a hash function; nothing stands for a read that failed.
    ghost answers: { (List ℕ → List ℕ) → Self → Option (List Text) → Printed };

    /// A read that failed is answered by 3.
    ghost unread: { (hash : List ℕ → List ℕ) (call : Self) → answers hash call None ≡ prints 3 [] };

    /// The files that it reads, each with the most bytes that it may have, in the order of the words.
    fn files(&self, alloc: Global) -> Result<Vec<(&str, usize)>, OutOfMemory>
        ensures { IfOk result (λ v. map asked v.items ≡ asks self.now) };

    /// What it replies to their texts.
    fn reply<H: Hash32 + Drop>(
        &self,
        alloc: Global,
        hash: H,
        texts: &[Option<Bytes>],
    ) -> Result<Reply, OutOfMemory>
        requires served { is_served self.now }
        requires count { length texts.now ≡ length (asks self.now) }
        ensures { IfOk result (λ reply. printed reply ≡ answers (H.digest_of hash) self.now (Some texts.now)) };
}
