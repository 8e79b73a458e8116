//! The whole program, over files and a sink that are handed in.

ghost use Rattle.std.specs.Prelude.{◌≡◌, ℕ, List, length, Some, map, string_bytes, refl, IfOk};
ghost use Rattle.spec_tool.specs.Replies.{printed};
ghost use Rattle.spec_next.specs.NextAnswer.{form_of, next_files, party_of, read_next};
ghost use Rattle.tool_shell.specs.Around.{around};
ghost use Rattle.tool_shell.specs.Asked.{asked};
ghost use Rattle.bitml_next.specs.Told.{seen, HasFew, Tells};

use crate::call::{NextCall, call_of, files_of, form_in, party_in};
use crate::replying::next_texts;
use crate::theorem::answers_tell_all;
use bm_hash::{Hash32, hashes_bytes};
use bm_io::{Files, Sink};
use spec_data::{Bytes, OutOfMemory};
use spec_tool::Reply;
use std::alloc::Global;
use tool_shell::{Call, serve};

impl Call for NextCall<'_> {
    ghost is_served = { λ call. HasFew (Some (seen call)) };

    ghost asks = { λ call. next_files (seen call) };

    ghost answers = { λ hash call. read_next hash (form_of (seen call)) (party_of (seen call)) };

    ghost unread = { λ hash call. refl };

    fn files(&self, alloc: Global) -> Result<Vec<(&str, usize)>, OutOfMemory>
        ensures { IfOk result (λ v. map asked v.items ≡ next_files (seen self.now)) }
    {
        files_of(alloc, self)
    }

    fn reply<H: Hash32 + Drop>(
        &self,
        alloc: Global,
        hash: H,
        texts: &[Option<Bytes>],
    ) -> Result<Reply, OutOfMemory>
        requires served { HasFew (Some (seen self.now)) }
        requires count { length texts.now ≡ length (next_files (seen self.now)) }
        ensures { IfOk result (λ reply. printed reply
            ≡ read_next (H.digest_of hash) (form_of (seen self.now)) (party_of (seen self.now)) (Some texts.now)) }
    {
        next_texts(alloc, hash, form_in(self), party_in(self), texts)
    }
}

/// Says what may come next in a run, or writes the first lines of one, by what the words name, and answers the status. Each status comes
/// exactly by its cause, and what is written is what the theorems on what comes next say of it.
pub fn next_tool<H: Hash32 + Drop, F: Files, S: Sink>(
    alloc: Global,
    words: &[String],
    hash: H,
    files: &mut F,
    out: &mut S,
) -> u8
    ensures { Tells (H.digest_of hash) (map string_bytes words.now)
        (around (F.told files.old) (F.log files.old) (F.taken files.old) (F.faults files.old) (S.pieces out.old) (S.faults out.old))
        (around (F.told files.new) (F.log files.new) (F.taken files.new) (F.faults files.new) (S.pieces out.new) (S.faults out.new)) result }
{
    hashes_bytes(&hash);
    answers_tell_all();
    serve(alloc, hash, Ok(call_of(words)), files, out)
}
