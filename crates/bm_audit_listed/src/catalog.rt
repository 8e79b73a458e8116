//! Which of a contract's transactions a transaction is.

ghost use Rattle.std.specs.Prelude.{◌≡◌, ◌++◌, ◌∷◌, [], if◌then◌else◌, slice_get, option_map, flat_map, OnOk, IfOk};
ghost use Rattle.std.specs.Option.{option_copied};
ghost use Rattle.spec_bitcoin.specs.Spelling.{stripped};
ghost use Rattle.bm_audit_listed.specs.Parts.{names_of};
ghost use Rattle.bm_audit_listed.specs.Indexed as spec;

use crate::entries::Candidate;
use bm_match::same_bare;
use bm_tx::encode_stripped;
use spec_bitcoin::Tx;
use spec_data::{OutOfMemory, Seq};
use spec_tool::Which;
use std::alloc::Global;
use std::collections::BTreeMap;
use std::marker::Model;

/// Transactions under their names, which are found by their bytes without marker and witnesses. Contracts see their list.
#[derive(Drop)]
pub struct Catalog {
    candidates: Vec<Candidate>,
    index: BTreeMap<Vec<u8>, Seq<usize>>,
}

impl Model for Catalog {
    ghost use Rattle.std.specs.Prelude.{List};
    ghost use Rattle.bm_audit_listed.specs.declared.entries.Candidate.{Candidate as Entry};
    ghost use Rattle.bm_audit_listed.specs.Indexed.{IsIndexed};

    ghost Value = { List Entry };

    ghost view = { λ c. c.candidates.items };

    ghost invariant = { λ c. IsIndexed c.candidates.items c.index };
}

// The places that the index has for these bytes, which are taken out of it.
fn taken(alloc: Global, index: &mut BTreeMap<Vec<u8>, Seq<usize>>, bytes: &[u8]) -> Seq<usize>
    ensures places { result ≡ spec.found_at index.old bytes.now }
    ensures left { spec.Leaves index.old index.new bytes.now }
{
    match index.remove(bytes) {
        Some(places) => places,
        None => Seq::new(alloc),
    }
}

// The index with the place of one transaction more.
fn add_place(
    alloc: Global,
    index: &mut BTreeMap<Vec<u8>, Seq<usize>>,
    tx: &Tx,
    place: usize,
) -> Result<(), OutOfMemory>
    ensures { OnOk result (spec.Adds index.old index.new (stripped tx.now) place) }
{
    let key = encode_stripped(alloc, tx)?;
    let mut places = taken(alloc, index, &key);
    places.push(place)?;
    index.insert(key, places)?;
    Ok(())
}

// The index of these transactions.
fn index_of(
    alloc: Global,
    candidates: &[Candidate],
) -> Result<BTreeMap<Vec<u8>, Seq<usize>>, OutOfMemory>
    ensures { IfOk result (spec.IsIndexed candidates.now) }
{
    let mut index = BTreeMap::new(alloc);
    for (place, candidate) in candidates.iter().enumerate() {
        add_place(alloc, &mut index, &candidate.tx, place)?;
    }
    Ok(index)
}

fn candidate_at(candidates: &[Candidate], place: usize) -> Option<&Candidate>
    ensures { option_copied result ≡ slice_get candidates.now place }
{
    candidates.get(place)
}

// The name of the transaction at this place, if it is this one without its witnesses.
fn put_name(
    alloc: Global,
    candidates: &[Candidate],
    place: usize,
    tx: &Tx,
    names: &mut Seq<Which>,
) -> Result<(), OutOfMemory>
    ensures { OnOk result (names.new ≡ names.old ++ spec.name_at candidates.now tx.now place) }
{
    let Some(candidate) = candidate_at(candidates, place) else {
        return Ok(());
    };
    if !same_bare(tx, &candidate.tx) {
        return Ok(());
    }
    names.push(candidate.which.copy(alloc)?)?;
    Ok(())
}

// The names of those at these places that are the transaction without its witnesses.
fn names_at(
    alloc: Global,
    candidates: &[Candidate],
    places: &[usize],
    tx: &Tx,
) -> Result<Seq<Which>, OutOfMemory>
    ensures { IfOk result (λ names. names ≡ flat_map (spec.name_at candidates.now tx.now) places.now) }
{
    let mut names = Seq::new(alloc);
    for place in places {
        put_name(alloc, candidates, *place, tx, &mut names)?;
    }
    Ok(names)
}

// The names by the index.
fn names_by(
    alloc: Global,
    candidates: &[Candidate],
    index: &BTreeMap<Vec<u8>, Seq<usize>>,
    tx: &Tx,
) -> Result<Seq<Which>, OutOfMemory>
    requires { spec.IsIndexed candidates.now index.now }
    ensures { IfOk result (λ names. names ≡ names_of candidates.now tx.now) }
{
    let key = encode_stripped(alloc, tx)?;
    match index.get(key.as_slice()) {
        Some(places) => names_at(alloc, candidates, places.as_slice(), tx),
        None => names_at(alloc, candidates, &[], tx),
    }
}

impl Catalog {
    /// The catalog of these transactions.
    pub fn of(alloc: Global, candidates: Vec<Candidate>) -> Result<Catalog, OutOfMemory>
        ensures { IfOk result (λ c. c ≡ candidates.items) }
    {
        let index = index_of(alloc, &candidates)?;
        Ok(Catalog { candidates, index })
    }

    /// The transactions in order.
    pub fn candidates(&self) -> &[Candidate]
        ensures { result.now ≡ self.now }
    {
        &self.candidates
    }

    /// The names of all of them that the transaction is without its witnesses, in their order.
    pub fn names(&self, alloc: Global, tx: &Tx) -> Result<Seq<Which>, OutOfMemory>
        ensures { IfOk result (λ names. names ≡ names_of self.now tx.now) }
    {
        names_by(alloc, &self.candidates, &self.index, tx)
    }
}
