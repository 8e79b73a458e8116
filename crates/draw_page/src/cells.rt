//! What the cells of both tables have in common.

ghost use Rattle.std.specs.Prelude.{◌≡◌, ◌++◌, [], codes, min, OnOk};
ghost use Rattle.spec_page.specs.Html.{escaped, element_text, content_text, all_of};
ghost use Rattle.spec_page.specs.Cells as spec;
ghost use Rattle.draw_page.specs.Texts.{text_of, each_text, sum_cell_text, party_cell_text};
ghost use Rattle.draw_page.specs.Scenes.{columns_of};

use crate::pieces::{Piece, put_all};
use crate::scene::Columns;
use spec_data::OutOfMemory;
use std::alloc::Global;

// The number of the look of a column.
pub(crate) fn column_look(column: usize) -> u64
    ensures { result ≡ min column 6 }
{
    column.min(6) as u64
}

/// A cell of a sum, in which this stands.
#[tactic(auto, using(std::proofs::Common::append_assoc), unfolding(spec_page::specs::Html::attribute_text, crate::specs::Texts::sum_cell_text))]
pub(crate) fn put_sum_cell<'a>(
    alloc: Global,
    out: &mut Vec<u8>,
    name: &'a [u8],
    inside: &'a [u8],
) -> Result<(), OutOfMemory>
    ensures { OnOk result (out.new.items ≡ out.old.items ++ sum_cell_text [] name.now inside.now) }
{
    if inside.is_empty() {
        return put_all(alloc, out, &[Piece::Mark(b"<td></td>")]);
    }
    put_all(
        alloc,
        out,
        &[
            Piece::Mark(b"<td class=\"sum\" data-of=\""),
            Piece::Said(name),
            Piece::Mark(b"\">"),
            Piece::Mark(inside),
            Piece::Mark(b"</td>"),
        ],
    )
}

/// A cell of a sum in the column of a party.
#[tactic(auto, unfolding(crate::specs::Texts::sum_cell_text))]
pub(crate) fn put_party_cell<'a>(
    alloc: Global,
    out: &mut Vec<u8>,
    column: usize,
    party: &'a [u8],
    inside: &'a [u8],
) -> Result<(), OutOfMemory>
    ensures { OnOk result (out.new.items ≡ out.old.items ++ party_cell_text column party.now inside.now) }
{
    if inside.is_empty() {
        return put_all(alloc, out, &[Piece::Mark(b"<td></td>")]);
    }
    put_all(
        alloc,
        out,
        &[
            Piece::Mark(b"<td class=\"sum p"),
            Piece::Number(column_look(column)),
            Piece::Mark(b"\" data-of=\""),
            Piece::Said(party),
            Piece::Mark(b"\">"),
            Piece::Mark(inside),
            Piece::Mark(b"</td>"),
        ],
    )
}

/// The cells behind those of the parties, with nothing in them.
#[tactic(auto, unfolding(crate::specs::Texts::text_of))]
pub(crate) fn last_cells(columns: &Columns) -> &'static [u8]
    ensures { result.now ≡ each_text (spec.last_cells (columns_of columns.now)) }
{
    if columns.elsewhere {
        b"<td></td><td></td><td></td>"
    } else {
        b"<td></td><td></td>"
    }
}

#[tactic(auto, using(std::proofs::Common::append_assoc), unfolding(spec_page::specs::Html::attribute_text))]
fn put_party_head(
    alloc: Global,
    out: &mut Vec<u8>,
    column: usize,
    party: &[u8],
) -> Result<(), OutOfMemory>
    ensures { OnOk result (out.new.items ≡ out.old.items ++ element_text (spec.party_head column party.now)) }
{
    put_all(
        alloc,
        out,
        &[
            Piece::Mark(b"<th class=\"name p"),
            Piece::Number(column_look(column)),
            Piece::Mark(b"\">"),
            Piece::Said(party),
            Piece::Mark(b"</th>"),
        ],
    )
}

fn put_party_heads(alloc: Global, out: &mut Vec<u8>, columns: &Columns) -> Result<(), OutOfMemory>
    ensures { OnOk result (out.new.items ≡ out.old.items ++ content_text (all_of (spec.each_party spec.party_head (columns_of columns.now)))) }
{
    for (column, party) in columns.parties.iter().enumerate() {
        put_party_head(alloc, out, column, party.bytes())?;
    }
    Ok(())
}

#[tactic(auto, using(std::proofs::Common::append_assoc), unfolding(spec_page::specs::Html::attribute_text))]
fn put_last_heads<'a>(
    alloc: Global,
    out: &mut Vec<u8>,
    columns: &Columns,
    contract: &'a [u8],
    elsewhere: &'a [u8],
    fees: &'a [u8],
) -> Result<(), OutOfMemory>
    ensures { OnOk result (out.new.items ≡ out.old.items
        ++ content_text (all_of (spec.last_heads (columns_of columns.now) contract.now elsewhere.now fees.now))) }
{
    if !columns.elsewhere {
        return put_all(
            alloc,
            out,
            &[
                Piece::Mark(b"<th>"),
                Piece::Said(contract),
                Piece::Mark(b"</th><th>"),
                Piece::Said(fees),
                Piece::Mark(b"</th>"),
            ],
        );
    }
    put_all(
        alloc,
        out,
        &[
            Piece::Mark(b"<th>"),
            Piece::Said(contract),
            Piece::Mark(b"</th><th>"),
            Piece::Said(elsewhere),
            Piece::Mark(b"</th><th>"),
            Piece::Said(fees),
            Piece::Mark(b"</th>"),
        ],
    )
}

#[tactic(auto, using(std::proofs::Common::append_assoc), unfolding(spec_page::specs::Html::attribute_text))]
fn put_head<'a>(
    alloc: Global,
    out: &mut Vec<u8>,
    what: &'a [u8],
    heads: &'a [u8],
) -> Result<(), OutOfMemory>
    ensures { OnOk result (out.new.items ≡ out.old.items ++ (codes "<tr class=\"head\"><th></th><th>" ++ (escaped what.now ++ (codes "</th>" ++ (heads.now ++ codes "</tr>"))))) }
{
    put_all(
        alloc,
        out,
        &[
            Piece::Mark(b"<tr class=\"head\"><th></th><th>"),
            Piece::Said(what),
            Piece::Mark(b"</th>"),
            Piece::Mark(heads),
            Piece::Mark(b"</tr>"),
        ],
    )
}

/// A row that says what the columns are.
pub(crate) fn put_head_row<'a>(
    alloc: Global,
    out: &mut Vec<u8>,
    columns: &Columns,
    what: &'a [u8],
    contract: &'a [u8],
    elsewhere: &'a [u8],
    fees: &'a [u8],
) -> Result<(), OutOfMemory>
    ensures { OnOk result (out.new.items ≡ out.old.items
        ++ text_of (spec.head_row (columns_of columns.now) what.now contract.now elsewhere.now fees.now)) }
{
    let mut heads = Vec::new(alloc);
    put_party_heads(alloc, &mut heads, columns)?;
    put_last_heads(alloc, &mut heads, columns, contract, elsewhere, fees)?;
    put_head(alloc, out, what, &heads)
}

/// The look of a table of so many parties.
pub(crate) fn table_look(count: usize) -> &'static [u8]
    ensures { result.now ≡ spec.table_look count }
{
    if count > 12 {
        b"wide turned"
    } else if count > 6 {
        b"wide"
    } else {
        b"few"
    }
}
