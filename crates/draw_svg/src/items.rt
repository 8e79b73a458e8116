//! Texts of a row.

ghost use Rattle.std.specs.Prelude.{◌≡◌, ◌++◌, ◌∷◌, [], map, IfOk, OnOk, None};
ghost use Rattle.spec_page.specs.Figures.{sum_text};
ghost use Rattle.spec_page.specs.SvgItems as spec;
ghost use Rattle.spec_page.specs.declared.svg_row.Kind.TheVariants as kinds;

use bm_runfile::words_of;
use draw_page::{Piece, made};
use spec_data::{Bytes, OutOfMemory, Seq};
use spec_page::{Cell, Item, Kind, Status};
use std::alloc::Global;

/// A text of this kind, of which this stands so.
pub(crate) fn item(kind: Kind, status: Option<Status>, text: Vec<u8>) -> Item
    ensures { result ≡ spec.item kind status text.items }
{
    Item {
        kind,
        status,
        text: Bytes::of(text),
    }
}

/// These bytes as a text.
pub(crate) fn plain_item(alloc: Global, kind: Kind, text: &[u8]) -> Result<Item, OutOfMemory>
    ensures { IfOk result (λ i. i ≡ spec.item kind None text.now) }
{
    Ok(Item {
        kind,
        status: None,
        text: Bytes::from_slice(alloc, text)?,
    })
}

/// A sum.
pub(crate) fn sum_of(alloc: Global, status: Option<Status>, value: u64) -> Result<Item, OutOfMemory>
    ensures { IfOk result (λ i. i ≡ spec.item kinds.Sum status (sum_text value)) }
{
    let text = made(alloc, &[Piece::PlainSum(value)])?;
    Ok(item(Kind::Sum, status, text))
}

// Each of these words as a text of its own.
#[tactic(auto, using(std::proofs::Common::append_assoc))]
fn put_words(
    alloc: Global,
    items: &mut Seq<Item>,
    kind: Kind,
    words: &[&[u8]],
) -> Result<(), OutOfMemory>
    ensures { OnOk result (items.new ≡ items.old ++ map (λ w. spec.item kind None w) (map (λ w. w.now) words.now)) }
{
    for word in words {
        let item = plain_item(alloc, kind, word)?;
        items.push(item)?;
    }
    Ok(())
}

/// The words of a text.
pub(crate) fn put_said(
    alloc: Global,
    items: &mut Seq<Item>,
    kind: Kind,
    text: &[u8],
) -> Result<(), OutOfMemory>
    ensures { OnOk result (items.new ≡ items.old ++ spec.said_items kind text.now) }
{
    let words = words_of(alloc, text)?;
    put_words(alloc, items, kind, &words)
}

/// The words of a text alone.
pub(crate) fn said(alloc: Global, kind: Kind, text: &[u8]) -> Result<Seq<Item>, OutOfMemory>
    ensures { IfOk result (λ items. items ≡ spec.said_items kind text.now) }
{
    let mut items = Seq::new(alloc);
    put_said(alloc, &mut items, kind, text)?;
    Ok(items)
}

/// A text alone, if it isn't empty.
pub(crate) fn item_if(alloc: Global, kind: Kind, text: Vec<u8>) -> Result<Seq<Item>, OutOfMemory>
    ensures { IfOk result (λ items. items ≡ spec.item_if kind text.items) }
{
    let mut items = Seq::new(alloc);
    if text.is_empty() {
        return Ok(items);
    }
    items.push(item(kind, None, text))?;
    Ok(items)
}

/// A column in which one text stands.
pub(crate) fn cell_with(alloc: Global, item: Item) -> Result<Cell, OutOfMemory>
    ensures { IfOk result (λ c. c ≡ spec.cell (item ∷ [])) }
{
    let mut items = Seq::new(alloc);
    items.push(item)?;
    Ok(Cell { items })
}
