//! How many characters texts take. More than a number of 64 bits counts are out of memory.

ghost use Rattle.std.specs.Prelude.{◌≡◌, ◌+◌, IfOk};
ghost use Rattle.spec_page.specs.SvgItems as spec;

use draw_page::further;
use spec_data::OutOfMemory;
use spec_page::{Item, Kind};

/// So many are left before a text, for a mark.
pub(crate) fn front(kind: Kind) -> usize
    ensures { result ≡ spec.front kind }
{
    match kind {
        Kind::Word => 0,
        Kind::Strong => 0,
        Kind::Note => 0,
        Kind::Bad => 0,
        Kind::Name(_) => 0,
        Kind::Path => 2,
        Kind::Chip => 2,
        Kind::Sum => 2,
    }
}

pub(crate) fn size(item: &Item) -> Result<usize, OutOfMemory>
    ensures { IfOk result (λ n. n ≡ spec.size item.now) }
{
    let length = further(front(item.kind), item.text.as_slice().len())?;
    further(length, 1)
}

pub(crate) fn items_size(items: &[Item]) -> Result<usize, OutOfMemory>
    ensures { IfOk result (λ n. n ≡ spec.items_size items.now) }
{
    let mut count = 0;
    for item in items {
        let own = size(item)?;
        count = further(count, own)?;
    }
    Ok(count)
}
