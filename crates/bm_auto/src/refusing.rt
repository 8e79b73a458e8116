//! What is replied where a strategy is refused.

ghost use Rattle.std.specs.Prelude.{◌≡◌, ◌++◌, codes, IfOk, OnOk};
ghost use Rattle.spec_text.specs.RunText.{newline};
ghost use Rattle.spec_tool.specs.AutoText as spec;
ghost use Rattle.spec_tool.specs.Replies.{printed};

use bm_text::put;
use spec_data::OutOfMemory;
use spec_tool::Reply;
use std::alloc::Global;

#[tactic(auto, using(std::proofs::Common::append_assoc))]
fn put_refused(out: &mut Vec<u8>, why: &[u8]) -> Result<(), OutOfMemory>
    ensures { OnOk result (out.new.items ≡ out.old.items ++ (codes "strategy refused " ++ (why.now ++ newline))) }
{
    put(out, b"strategy refused ")?;
    put(out, why)?;
    put(out, b"\n")
}

/// The strategy is refused for this, in words.
pub fn strategy_refused(alloc: Global, why: &[u8]) -> Result<Reply, OutOfMemory>
    ensures { IfOk result (λ reply. printed reply ≡ spec.strategy_refused why.now) }
{
    let mut text = Vec::new(alloc);
    put_refused(&mut text, why)?;
    Ok(Reply::new(11, text))
}
