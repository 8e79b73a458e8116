//! What is replied to the texts of a call's files.

ghost use Rattle.std.specs.Prelude.{◌≡◌, Some, length, IfOk};
ghost use Rattle.spec_tool.specs.Replies.{printed};
ghost use Rattle.bitml_draw.specs.DrawAnswer as spec;
ghost use Rattle.bitml_draw.specs.Drawn.{seen, HasFew};

use crate::call::DrawCall;
use bm_hash::Hash32;
use draw_replies::{Form, drawn_texts};
use spec_data::{Bytes, OutOfMemory};
use spec_tool::Reply;
use std::alloc::Global;

/// What is replied to the texts of a call's files, under its title.
pub(crate) fn drawn_reply<H: Hash32 + Drop>(
    alloc: Global,
    hash: H,
    call: &DrawCall,
    title: &[u8],
    texts: &[Option<Bytes>],
) -> Result<Reply, OutOfMemory>
    requires served { HasFew (Some (seen call.now)) }
    requires count { length texts.now ≡ length (spec.draw_files (seen call.now)) }
    requires title { title.now ≡ spec.draw_title (seen call.now) }
    ensures { IfOk result (λ reply. printed reply ≡ spec.drawn_texts (H.digest_of hash) (seen call.now) texts.now) }
{
    match call {
        DrawCall::Sheet(_) => drawn_texts(alloc, Form::Page, title, hash, texts),
        DrawCall::Run(form, _, _) => drawn_texts(alloc, *form, title, hash, texts),
    }
}
