//! What stands beside the name of a branch: the value of its part, and what it waits for.

ghost use Rattle.std.specs.Prelude.{◌≡◌, ◌++◌, ◌∷◌, [], codes, IfOk, OnOk};
ghost use Rattle.spec_page.specs.Html.{element, said, classed, content_text};
ghost use Rattle.spec_page.specs.ContractPart as spec;
ghost use Rattle.spec_page.specs.ContractPart.{conditions_content};
ghost use Rattle.draw_page.specs.Texts.{text_of, spaced_text};
ghost use Rattle.draw_page.specs.Scenes.{scene_of};
ghost use Rattle.draw_page.specs.ShareTexts.{share_text};

use crate::looks::{end_word, statuses_text};
use crate::parts::further;
use crate::pieces::{Piece, made, put_all};
use crate::scene::Scene;
use bm_text::put;
use spec_data::OutOfMemory;
use spec_page::Condition;
use std::alloc::Global;

/// A condition in words.
pub fn condition_text(alloc: Global, condition: &Condition) -> Result<Vec<u8>, OutOfMemory>
    ensures { IfOk result (λ text. text.items ≡ spec.condition_text condition.now) }
{
    match condition {
        Condition::Agrees(party) => made(
            alloc,
            &[Piece::Mark(party.bytes()), Piece::Mark(b" agrees")],
        ),
        Condition::Block(height) => made(
            alloc,
            &[Piece::Mark(b"block "), Piece::PlainSum(u64::from(*height))],
        ),
        Condition::Puts { party, value, .. } => made(
            alloc,
            &[
                Piece::Mark(party.bytes()),
                Piece::Mark(b" puts "),
                Piece::PlainSum(*value),
            ],
        ),
        Condition::Shows { party, secret } => made(
            alloc,
            &[
                Piece::Mark(party.bytes()),
                Piece::Mark(b" shows "),
                Piece::Mark(secret.bytes()),
            ],
        ),
        Condition::Holds(text) => made(alloc, &[Piece::Mark(b"if "), Piece::Mark(text.as_slice())]),
    }
}

/// Words of a class.
pub(crate) fn put_span<'a>(
    alloc: Global,
    out: &mut Vec<u8>,
    class: &'a [u8],
    text: &'a [u8],
) -> Result<(), OutOfMemory>
    ensures { OnOk result (out.new.items ≡ out.old.items ++ text_of (classed (codes "span") class.now (said text.now))) }
{
    put_all(
        alloc,
        out,
        &[
            Piece::Mark(b"<span class=\""),
            Piece::Said(class),
            Piece::Mark(b"\">"),
            Piece::Said(text),
            Piece::Mark(b"</span>"),
        ],
    )
}

fn put_chip_text<'a>(
    alloc: Global,
    out: &mut Vec<u8>,
    end: &'a [u8],
    at: &'a [u8],
    text: &'a [u8],
) -> Result<(), OutOfMemory>
    ensures { OnOk result (out.new.items ≡ out.old.items
        ++ text_of (element (codes "span") ((codes "class", codes "chip " ++ end.now) ∷ (codes "data-at", at.now) ∷ []) (said text.now))) }
{
    put_all(
        alloc,
        out,
        &[
            Piece::Mark(b"<span class=\"chip "),
            Piece::Said(end),
            Piece::Mark(b"\" data-at=\""),
            Piece::Said(at),
            Piece::Mark(b"\">"),
            Piece::Said(text),
            Piece::Mark(b"</span>"),
        ],
    )
}

fn put_chip(
    alloc: Global,
    out: &mut Vec<u8>,
    scene: &Scene,
    part: usize,
    condition: &Condition,
) -> Result<(), OutOfMemory>
    ensures { OnOk result (out.new.items ≡ out.old.items ++ text_of (spec.chip (scene_of scene.now) part condition.now)) }
{
    let at = statuses_text(alloc, part, scene.rows)?;
    let text = condition_text(alloc, condition)?;
    put_chip_text(alloc, out, end_word(part, scene.rows), &at, &text)
}

#[tactic(auto, using(std::proofs::Common::append_assoc))]
fn put_chips(
    alloc: Global,
    out: &mut Vec<u8>,
    scene: &Scene,
    part: usize,
    conditions: &[Condition],
) -> Result<(), OutOfMemory>
    ensures { OnOk result (out.new.items ≡ out.old.items ++ spaced_text (spec.chips (scene_of scene.now) part conditions.now)) }
{
    for (index, condition) in conditions.iter().enumerate() {
        let own = further(part, index)?;
        put_chip(alloc, out, scene, own, condition)?;
        put(out, b" ")?;
    }
    Ok(())
}

/// What a branch waits for.
pub(crate) fn put_conditions(
    alloc: Global,
    out: &mut Vec<u8>,
    scene: &Scene,
    part: usize,
    conditions: &[Condition],
) -> Result<(), OutOfMemory>
    ensures { OnOk result (out.new.items ≡ out.old.items ++ content_text (conditions_content (scene_of scene.now) part conditions.now)) }
{
    if conditions.is_empty() {
        return put_span(alloc, out, b"any", b"anyone");
    }
    put_chips(alloc, out, scene, part, conditions)
}

/// The value of a part before what comes of it.
pub(crate) fn put_share(
    alloc: Global,
    out: &mut Vec<u8>,
    share: Option<u64>,
) -> Result<(), OutOfMemory>
    ensures { OnOk result (out.new.items ≡ out.old.items ++ share_text share) }
{
    let Some(value) = share else {
        return Ok(());
    };
    let text = made(alloc, &[Piece::PlainSum(value), Piece::Mark(b": ")])?;
    put_span(alloc, out, b"part", &text)
}

/// The value of a part, and what the branch waits for.
pub(crate) fn inside_text(
    alloc: Global,
    scene: &Scene,
    part: usize,
    share: Option<u64>,
    conditions: &[Condition],
) -> Result<Vec<u8>, OutOfMemory>
    ensures { IfOk result (λ text. text.items
        ≡ share_text share ++ content_text (conditions_content (scene_of scene.now) part conditions.now)) }
{
    let mut text = Vec::new(alloc);
    put_share(alloc, &mut text, share)?;
    put_conditions(alloc, &mut text, scene, part, conditions)?;
    Ok(text)
}
