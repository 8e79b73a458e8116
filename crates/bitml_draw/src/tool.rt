//! The whole program, over files and a sink that are handed in.

ghost use Rattle.std.specs.Prelude.{◌≡◌, ℕ, List, length, Some, map, string_bytes, refl, IfOk};
ghost use Rattle.spec_tool.specs.Replies.{printed};
ghost use Rattle.tool_shell.specs.Around.{around};
ghost use Rattle.tool_shell.specs.Asked.{asked};
ghost use Rattle.bitml_draw.specs.DrawAnswer.{draw_files, drawn_read};
ghost use Rattle.bitml_draw.specs.Drawn.{seen, HasFew, Serves};

use crate::call::{DrawCall, call_of, files_in, title_in};
use crate::replying::drawn_reply;
use crate::theorem::answers_draw_all;
use bm_hash::{Hash32, hashes_bytes};
use bm_io::{Files, Sink};
use spec_data::{Bytes, OutOfMemory};
use spec_tool::Reply;
use std::alloc::Global;
use tool_shell::{Call, serve};

impl Call for DrawCall<'_> {
    ghost is_served = { λ call. HasFew (Some (seen call)) };

    ghost asks = { λ call. draw_files (seen call) };

    ghost answers = { λ hash call. drawn_read hash (seen call) };

    ghost unread = { λ hash call. refl };

    fn files(&self, alloc: Global) -> Result<Vec<(&str, usize)>, OutOfMemory>
        ensures { IfOk result (λ v. map asked v.items ≡ draw_files (seen self.now)) }
    {
        files_in(alloc, self)
    }

    fn reply<H: Hash32 + Drop>(
        &self,
        alloc: Global,
        hash: H,
        texts: &[Option<Bytes>],
    ) -> Result<Reply, OutOfMemory>
        requires served { HasFew (Some (seen self.now)) }
        requires count { length texts.now ≡ length (draw_files (seen self.now)) }
        ensures { IfOk result (λ reply. printed reply ≡ drawn_read (H.digest_of hash) (seen self.now) (Some texts.now)) }
    {
        let title = title_in(alloc, self)?;
        drawn_reply(alloc, hash, self, &title, texts)
    }
}

/// Draws what the words ask for, and answers the status. What is written of files that hold a contract, or a run and its contracts, is the
/// page of it, or behind `--svg` the rows of the run at its end. Of both the theorems on pages and their rows speak, and each status comes
/// exactly by its cause.
pub fn draw_tool<H: Hash32 + Drop, F: Files, S: Sink>(
    alloc: Global,
    words: &[String],
    hash: H,
    files: &mut F,
    out: &mut S,
) -> u8
    ensures { Serves (H.digest_of hash) (map string_bytes words.now)
        (around (F.told files.old) (F.log files.old) (F.taken files.old) (F.faults files.old) (S.pieces out.old) (S.faults out.old))
        (around (F.told files.new) (F.log files.new) (F.taken files.new) (F.faults files.new) (S.pieces out.new) (S.faults out.new)) result }
{
    hashes_bytes(&hash);
    answers_draw_all();
    serve(alloc, hash, Ok(call_of(words)), files, out)
}
