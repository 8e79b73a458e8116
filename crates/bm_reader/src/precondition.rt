//! Readers of the entries of a precondition.

ghost use Rattle.std.specs.Prelude.{◌≡◌, ◌+◌, IfOk};
ghost use Rattle.spec_text.specs.Reading.{token_by};
ghost use Rattle.spec_terms.specs.Readable.{most_deposits, most_secrets};
ghost use Rattle.spec_text.specs.ReadAdvert.{an_entry_kind, head_at, deposit_at, secret_at, entry_rest_at, entry_at};
ghost use Rattle.spec_text.specs.ReadAdvert.{entries_go_on, entries_at, fee_at};
ghost use Rattle.bm_reader.specs.Gives.{Gives};
ghost use Rattle.bm_reader.specs.Entries.{entry_kind, room, room_behind, added};

use crate::error::ReadError;
use crate::pieces::{name_of, number_of, symbol_of, wrong};
use spec_data::{MAX_MONEY, Name};
use spec_terms::{Limit, Pre};
use spec_text::{Keyword, Lexeme, Stop, Symbol};
use std::alloc::Global;

/// The deposits of a precondition, of both kinds.
const MOST_DEPOSITS: u32 = 32;

/// The secrets of a precondition.
const MOST_SECRETS: u32 = 32;

/// What an entry is.
#[derive(Clone, Copy)]
enum Kind {
    Persistent,
    Volatile,
    Secret,
}

/// How many deposits and secrets may still come.
#[derive(Clone, Copy)]
struct Space {
    deposits: u32,
    secrets: u32,
}

/// What an entry is, by the token behind its colon.
fn kind_of(lexemes: &[Lexeme]) -> Result<(Kind, &[Lexeme]), ReadError>
    ensures { Gives (λ x. (entry_kind x.0, x.1.now)) result (token_by an_entry_kind lexemes.now) }
{
    match lexemes {
        [Lexeme::Symbol(Symbol::Bang), rest @ ..] => Ok((Kind::Persistent, rest)),
        [Lexeme::Symbol(Symbol::Question), rest @ ..] => Ok((Kind::Volatile, rest)),
        [Lexeme::Keyword(Keyword::Secret), rest @ ..] => Ok((Kind::Secret, rest)),
        _ => Err(wrong(lexemes)),
    }
}

/// The party of an entry and what the entry is.
#[tactic(auto, unfolding(spec_text::specs::ReadAdvert::head_at))]
fn head_of(lexemes: &[Lexeme]) -> Result<((&Name, Kind), &[Lexeme]), ReadError>
    ensures { Gives (λ x. ((x.0.0.now, entry_kind x.0.1), x.1.now)) result (head_at lexemes.now) }
{
    let (party, rest) = name_of(lexemes)?;
    let rest = symbol_of(Symbol::Colon, rest)?;
    let (kind, rest) = kind_of(rest)?;
    Ok(((party, kind), rest))
}

/// The room behind an entry of this kind. `left` tokens are left from the entry on, at which the limit is shown.
fn space_behind(kind: Kind, space: Space, left: usize) -> Result<Space, ReadError>
    ensures gives { Gives room result (room_behind (entry_kind kind) (room space) left) }
    ensures less { IfOk result (λ s. (s.deposits + s.secrets) + 1 ≡ space.deposits + space.secrets) }
{
    match kind {
        Kind::Persistent | Kind::Volatile if space.deposits == 0 => {
            Err(ReadError::Stop(Stop::Limit(Limit::Deposits, left)))
        }
        Kind::Secret if space.secrets == 0 => {
            Err(ReadError::Stop(Stop::Limit(Limit::Secrets, left)))
        }
        Kind::Persistent | Kind::Volatile => Ok(Space {
            deposits: space.deposits - 1,
            secrets: space.secrets,
        }),
        Kind::Secret => Ok(Space {
            deposits: space.deposits,
            secrets: space.secrets - 1,
        }),
    }
}

/// A deposit, behind its `!` or `?`.
#[tactic(auto, unfolding(spec_text::specs::ReadAdvert::deposit_at))]
fn deposit_of<'a>(
    persists: bool,
    party: &Name,
    lexemes: &'a [Lexeme],
) -> Result<(Pre, &'a [Lexeme]), ReadError>
    ensures { Gives (λ x. (x.0, x.1.now)) result (deposit_at persists party.now lexemes.now) }
{
    let (value, rest) = number_of(MAX_MONEY, lexemes)?;
    let rest = symbol_of(Symbol::At, rest)?;
    let (name, rest) = name_of(rest)?;
    let party = *party;
    let name = *name;
    if persists {
        Ok((Pre::Persistent { party, value, name }, rest))
    } else {
        Ok((Pre::Volatile { party, value, name }, rest))
    }
}

/// A secret, behind its keyword.
#[tactic(auto, unfolding(spec_text::specs::ReadAdvert::secret_at))]
fn secret_of<'a>(party: &Name, lexemes: &'a [Lexeme]) -> Result<(Pre, &'a [Lexeme]), ReadError>
    ensures { Gives (λ x. (x.0, x.1.now)) result (secret_at party.now lexemes.now) }
{
    let (name, rest) = name_of(lexemes)?;
    let secret = Pre::Secret {
        party: *party,
        name: *name,
    };
    Ok((secret, rest))
}

/// What stands behind the kind of an entry.
fn entry_rest_of<'a>(
    kind: Kind,
    party: &Name,
    lexemes: &'a [Lexeme],
) -> Result<(Pre, &'a [Lexeme]), ReadError>
    ensures { Gives (λ x. (x.0, x.1.now)) result (entry_rest_at (entry_kind kind) party.now lexemes.now) }
{
    match kind {
        Kind::Persistent => deposit_of(true, party, lexemes),
        Kind::Volatile => deposit_of(false, party, lexemes),
        Kind::Secret => secret_of(party, lexemes),
    }
}

/// Adds the entry at the front, where its kind has room, and answers the room behind it.
#[tactic(auto, unfolding(spec_text::specs::ReadAdvert::entry_at))]
fn add_entry<'a>(
    entries: &mut Vec<Pre>,
    space: Space,
    lexemes: &'a [Lexeme],
) -> Result<(Space, &'a [Lexeme]), ReadError>
    ensures gives { Gives (λ x. ((entries.new.items, room x.0), x.1.now)) result
        (added entries.old.items (entry_at (room space) lexemes.now)) }
    ensures less { IfOk result (λ x. (x.0.deposits + x.0.secrets) + 1 ≡ space.deposits + space.secrets) }
{
    let ((party, kind), rest) = head_of(lexemes)?;
    let space = space_behind(kind, space, lexemes.len())?;
    match entry_rest_of(kind, party, rest) {
        Ok((entry, rest)) => {
            entries.push(entry)?;
            Ok((space, rest))
        }
        Err(error) => Err(error),
    }
}

/// A bar is true, the brace that closes false.
fn more_of(lexemes: &[Lexeme]) -> Result<(bool, &[Lexeme]), ReadError>
    ensures { Gives (λ x. (x.0, x.1.now)) result (token_by entries_go_on lexemes.now) }
{
    match lexemes {
        [Lexeme::Symbol(Symbol::Bar), rest @ ..] => Ok((true, rest)),
        [Lexeme::Symbol(Symbol::RightBrace), rest @ ..] => Ok((false, rest)),
        _ => Err(wrong(lexemes)),
    }
}

/// The entries of a precondition, up to the brace that closes it.
pub fn entries_of(alloc: Global, lexemes: &[Lexeme]) -> Result<(Vec<Pre>, &[Lexeme]), ReadError>
    ensures { Gives (λ x. (x.0.items, x.1.now)) result
        (entries_at (most_deposits + most_secrets) (most_deposits, most_secrets) lexemes.now) }
{
    let mut entries = Vec::new(alloc);
    let mut space = Space {
        deposits: MOST_DEPOSITS,
        secrets: MOST_SECRETS,
    };
    let mut rest = lexemes;
    loop {
        let (left, after) = add_entry(&mut entries, space, rest)?;
        let (more, after) = more_of(after)?;
        if !more {
            return Ok((entries, after));
        }
        space = left;
        rest = after;
    }
}

/// The fee, 0 where there is none.
#[tactic(auto, unfolding(spec_text::specs::ReadAdvert::fee_at))]
pub fn fee_of(lexemes: &[Lexeme]) -> Result<(u64, &[Lexeme]), ReadError>
    ensures { Gives (λ x. (x.0, x.1.now)) result (fee_at lexemes.now) }
{
    match lexemes {
        [Lexeme::Keyword(Keyword::Fee), rest @ ..] => number_of(MAX_MONEY, rest),
        _ => Ok((0, lexemes)),
    }
}
