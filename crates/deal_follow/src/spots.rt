//! The places of the outputs of a deal, each found by the transaction that makes it.

ghost use Rattle.std.specs.Prelude.{◌≡◌, ◌++◌, ◌∷◌, [], map, filter, IfOk, OnOk};
ghost use Rattle.std.specs.List.{list_any};
ghost use Rattle.spec_bitcoin.specs.Live.{same_outpoint};
ghost use Rattle.spec_chain.specs.Outputs.{is_position};
ghost use Rattle.deal_follow.specs.Boards.{place_in, place_of, has_place};

use crate::outputs::is_position;
use deal_index::{Indexed, Keyed};
use spec_bitcoin::OutPoint;
use spec_chain::Output;
use spec_data::OutOfMemory;
use std::alloc::Global;

/// A place, found by its txid.
pub(crate) struct Spot {
    pub(crate) place: OutPoint,
}

impl Drop for Spot {
    fn drop(self) {
        let Spot { place: _ } = self;
    }
}

impl Keyed for Spot {
    ghost use Rattle.std.specs.Prelude.{true};

    ghost key_of = { λ spot. spot.place.txid };

    ghost is_sized = { λ _. true };
}

// One place more.
fn put_spot(alloc: Global, spots: &mut Indexed<Spot>, place: OutPoint) -> Result<(), OutOfMemory>
    ensures { OnOk result (map place_in spots.new ≡ map place_in spots.old ++ place ∷ []) }
{
    let found_by = Vec::from_slice(alloc, &place.txid)?;
    spots.push(Spot { place }, found_by)
}

/// The places of these outputs.
pub(crate) fn spots_of(alloc: Global, outputs: &[Output]) -> Result<Indexed<Spot>, OutOfMemory>
    ensures { IfOk result (λ spots. map place_in spots ≡ map place_of outputs.now) }
{
    let mut spots = Indexed::new(alloc);
    for output in outputs {
        put_spot(alloc, &mut spots, output.place)?;
    }
    Ok(spots)
}

/// Adds the places of those of these outputs that are positions.
pub(crate) fn put_positions(
    alloc: Global,
    spots: &mut Indexed<Spot>,
    outputs: &[Output],
) -> Result<(), OutOfMemory>
    ensures { OnOk result (map place_in spots.new ≡ map place_in spots.old ++ map place_of (filter is_position outputs.now)) }
{
    for output in outputs {
        if is_position(output) {
            put_spot(alloc, spots, output.place)?;
        }
    }
    Ok(())
}

/// Whether two places are the same. Their numbers are compared first, since most differ.
pub(crate) fn same_place(one: &OutPoint, other: &OutPoint) -> bool
    ensures { result ≡ same_outpoint one.now other.now }
{
    one.vout == other.vout && one.txid == other.txid
}

// Whether this is one of these places.
fn is_there(spots: &[Spot], place: &OutPoint) -> bool
    ensures { result ≡ has_place (map place_in spots.now) place.now }
{
    for spot in spots {
        if same_place(&spot.place, place) {
            return true;
        }
    }
    false
}

/// Whether this is one of these places. Most are known not to be by their txids.
pub(crate) fn has_spot(spots: &Indexed<Spot>, place: &OutPoint) -> bool
    ensures { result ≡ has_place (map place_in spots.now) place.now }
{
    match spots.find(&place.txid) {
        Some(_) => is_there(spots.as_slice(), place),
        None => false,
    }
}

/// Whether this is one of these places.
pub(crate) fn is_among(places: &[OutPoint], place: &OutPoint) -> bool
    ensures { result ≡ has_place places.now place.now }
{
    for known in places {
        if same_place(known, place) {
            return true;
        }
    }
    false
}
