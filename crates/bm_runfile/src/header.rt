//! The lines of a header.

ghost use Rattle.std.specs.Prelude.{◌≡◌, ◌∷◌, [], ◌&&◌, not, map, sum_by, Some};
ghost use Rattle.std.specs.List.{list_any};
ghost use Rattle.std.specs.Str.{bytes_eq};
ghost use Rattle.spec_data.specs.Lists.{is_among};
ghost use Rattle.spec_text.specs.RunFile.{party_line, honest_line, secret_line, deposit_line, rule_line, header_words, header_line};
ghost use Rattle.spec_text.specs.RunFile.{is_taken, held_secret, secret_of};
ghost use Rattle.bm_runfile.specs.Gives.{Grows, SaysRule, SaysHeader};
ghost use Rattle.bm_runfile.specs.Rooms.{party_room, honest_room, secret_by, secret_room};
ghost use Rattle.spec_data.specs.Digits.{read_hex};
ghost use Rattle.spec_terms.specs.Readable.{is_name};
ghost use Rattle.spec_text.specs.Words.{given};

use crate::error::LineError;
use crate::limits::{MOST_DEPOSITS, MOST_LINE_BYTES, MOST_PARTIES, MOST_SECRETS};
use crate::lines::words_of;
use crate::words::{a_name, amount, one_of, read_bytes};
use spec_data::{Bytes, MAX_MONEY, Name, end_apart};
use spec_run::{Header, HeldSecret};
use spec_text::RunLimit;
use std::alloc::Global;

/// What a line of the header says.
#[derive(Clone, Copy, Debug, PartialEq, Eq)]
pub(crate) enum Said {
    Empty,
    Rule,
    Grown,
}

fn is_among(names: &[Name], word: &[u8]) -> bool
    ensures { result ≡ is_among word.now names.now }
{
    names.iter().any(|name| name.bytes() == word)
}

/// A name that isn't declared.
fn new_party(header: &Header, word: &[u8]) -> Option<Name>
    ensures { result ≡ given (is_name word.now && not (is_among word.now header.now.parties)) word.now }
{
    if is_among(header.parties.as_slice(), word) {
        return None;
    }
    a_name(word)
}

fn push_party(header: &mut Header, name: Name) -> Result<(), LineError>
    ensures { Grows header.old header.new result (party_room header.old name) }
{
    if header.parties.len() >= MOST_PARTIES {
        return Err(LineError::Over(RunLimit::Parties));
    }
    header.parties.push(name)?;
    Ok(())
}

fn add_party(header: &mut Header, word: &[u8]) -> Result<(), LineError>
    ensures { Grows header.old header.new result (party_line header.old (word.now ∷ [])) }
{
    match new_party(header, word) {
        None => Err(LineError::Bad),
        Some(name) => push_party(header, name),
    }
}

/// `party A`
fn take_party(header: &mut Header, words: &[&[u8]]) -> Result<(), LineError>
    ensures { Grows header.old header.new result (party_line header.old (map (λ w. w.now) words.now)) }
{
    match words {
        [word] => add_party(header, word),
        _ => Err(LineError::Bad),
    }
}

fn push_honest(header: &mut Header, name: Name) -> Result<(), LineError>
    ensures { Grows header.old header.new result (honest_room header.old name) }
{
    header.honest.push(name)?;
    Ok(())
}

/// A declared party that isn't honest yet.
fn new_honest(header: &Header, word: &[u8]) -> Option<Name>
    ensures { result ≡ given (is_among word.now header.now.parties && not (is_among word.now header.now.honest)) word.now }
{
    if is_among(header.honest.as_slice(), word) {
        return None;
    }
    one_of(header.parties.as_slice(), word)
}

fn add_honest(header: &mut Header, word: &[u8]) -> Result<(), LineError>
    ensures { Grows header.old header.new result (honest_line header.old (word.now ∷ [])) }
{
    match new_honest(header, word) {
        None => Err(LineError::Bad),
        Some(name) => push_honest(header, name),
    }
}

/// `honest A`
fn take_honest(header: &mut Header, words: &[&[u8]]) -> Result<(), LineError>
    ensures { Grows header.old header.new result (honest_line header.old (map (λ w. w.now) words.now)) }
{
    match words {
        [word] => add_honest(header, word),
        _ => Err(LineError::Bad),
    }
}

// Of many secrets most names end otherwise.
fn is_of(party: &[u8], name: &[u8], secret: &HeldSecret) -> bool
    ensures { result ≡ (bytes_eq secret.now.party party.now && bytes_eq secret.now.name name.now) }
{
    if end_apart(secret.name.bytes(), name) {
        return false;
    }
    secret.party.bytes() == party && secret.name.bytes() == name
}

fn is_taken(party: &[u8], name: &[u8], bytes: &[u8], secret: &HeldSecret) -> bool
    ensures { result ≡ is_taken party.now name.now bytes.now secret.now }
{
    if is_of(party, name, secret) {
        return true;
    }
    if end_apart(secret.bytes.as_slice(), bytes) {
        return false;
    }
    secret.bytes.as_slice() == bytes
}

fn any_taken(party: &[u8], name: &[u8], bytes: &[u8], secrets: &[HeldSecret]) -> bool
    ensures { result ≡ list_any (is_taken party.now name.now bytes.now) secrets.now }
{
    secrets
        .iter()
        .any(|secret| is_taken(party, name, bytes, secret))
}

/// The secret of an owner and a name, if there are both.
fn secret_by(owner: Option<Name>, name: Option<Name>, bytes: Vec<u8>) -> Option<HeldSecret>
    ensures { result ≡ secret_by owner name bytes.items }
{
    let party = owner?;
    let name = name?;
    Some(HeldSecret {
        party,
        name,
        bytes: Bytes::of(bytes),
    })
}

/// The secret of these words, if it is of an honest party, and new.
fn new_secret(header: &Header, party: &[u8], name: &[u8], bytes: Vec<u8>) -> Option<HeldSecret>
    ensures { result ≡ given ((is_among party.now header.now.honest && is_name name.now)
        && not (list_any (is_taken party.now name.now bytes.items) header.now.secrets)) (held_secret party.now name.now bytes.items) }
{
    if any_taken(party, name, bytes.as_slice(), header.secrets.as_slice()) {
        return None;
    }
    let owner = one_of(header.honest.as_slice(), party);
    let title = a_name(name);
    secret_by(owner, title, bytes)
}

fn push_secret(header: &mut Header, secret: HeldSecret) -> Result<(), LineError>
    ensures { Grows header.old header.new result (secret_room header.old secret) }
{
    if header.secrets.len() >= MOST_SECRETS {
        return Err(LineError::Over(RunLimit::Secrets));
    }
    header.secrets.push(secret)?;
    Ok(())
}

fn add_secret(
    header: &mut Header,
    party: &[u8],
    name: &[u8],
    bytes: Vec<u8>,
) -> Result<(), LineError>
    ensures { Grows header.old header.new result (secret_of header.old party.now name.now (Some bytes.items)) }
{
    match new_secret(header, party, name, bytes) {
        None => Err(LineError::Bad),
        Some(secret) => push_secret(header, secret),
    }
}

fn read_secret(
    alloc: Global,
    header: &mut Header,
    party: &[u8],
    name: &[u8],
    text: &[u8],
) -> Result<(), LineError>
    ensures { Grows header.old header.new result (secret_of header.old party.now name.now (read_hex text.now)) }
{
    let bytes = read_bytes(alloc, text)?;
    add_secret(header, party, name, bytes)
}

/// `secret A a HEX`
fn take_secret(alloc: Global, header: &mut Header, words: &[&[u8]]) -> Result<(), LineError>
    ensures { Grows header.old header.new result (secret_line header.old (map (λ w. w.now) words.now)) }
{
    match words {
        [party, name, text] => read_secret(alloc, header, party, name, text),
        _ => Err(LineError::Bad),
    }
}

/// The values of deposits, added up.
fn total(deposits: &[(Name, u64)]) -> u128
    ensures { result ≡ sum_by (λ d. d.1) deposits.now }
{
    deposits.iter().map(|d| d.1 as u128).sum()
}

/// `deposit A v`
fn take_deposit(header: &mut Header, words: &[&[u8]]) -> Result<(), LineError>
    ensures { Grows header.old header.new result (deposit_line header.old (map (λ w. w.now) words.now)) }
{
    let [party, word] = words else {
        return Err(LineError::Bad);
    };
    let Some(value) = amount(word) else {
        return Err(LineError::Bad);
    };
    let Some(owner) = one_of(header.parties.as_slice(), party) else {
        return Err(LineError::Bad);
    };
    if value > MAX_MONEY {
        return Err(LineError::Bad);
    }
    if total(header.deposits.as_slice()) > (MAX_MONEY - value) as u128 {
        return Err(LineError::Bad);
    }
    if header.deposits.len() >= MOST_DEPOSITS {
        return Err(LineError::Over(RunLimit::Deposits));
    }
    header.deposits.push((owner, value))?;
    Ok(())
}

fn take_rule(words: &[&[u8]]) -> Result<Said, LineError>
    ensures { SaysRule result (rule_line (map (λ w. w.now) words.now)) }
{
    if words.is_empty() {
        return Ok(Said::Rule);
    }
    Err(LineError::Bad)
}

/// What the words of a line say: nothing, the end of the header, or more of it.
fn take_words(alloc: Global, header: &mut Header, words: &[&[u8]]) -> Result<Said, LineError>
    ensures { SaysHeader header.old header.new result (header_words header.old (map (λ w. w.now) words.now)) }
{
    let [word, rest @ ..] = words else {
        return Ok(Said::Empty);
    };
    if *word == b"party".as_slice() {
        take_party(header, rest)?;
        return Ok(Said::Grown);
    }
    if *word == b"honest".as_slice() {
        take_honest(header, rest)?;
        return Ok(Said::Grown);
    }
    if *word == b"secret".as_slice() {
        take_secret(alloc, header, rest)?;
        return Ok(Said::Grown);
    }
    if *word == b"deposit".as_slice() {
        take_deposit(header, rest)?;
        return Ok(Said::Grown);
    }
    if *word == b"--".as_slice() {
        return take_rule(rest);
    }
    Err(LineError::Bad)
}

/// What a line says.
pub(crate) fn take_line(alloc: Global, header: &mut Header, line: &[u8]) -> Result<Said, LineError>
    ensures { SaysHeader header.old header.new result (header_line header.old line.now) }
{
    if line.len() > MOST_LINE_BYTES {
        return Err(LineError::Over(RunLimit::Line));
    }
    let words = words_of(alloc, line)?;
    take_words(alloc, header, words.as_slice())
}
