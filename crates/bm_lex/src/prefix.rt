//! The token at the front of some bytes.

ghost use Rattle.std.specs.Prelude.{◌≡◌, ◌≤◌, ◌<◌, ℕ, List, ◌∷◌, ◌^◌, length, take_while, IfSome, Option, Some, None, true};
ghost use Rattle.bm_lex.specs.Prefixes.{prefix_of, word_at, number_at};
ghost use Rattle.spec_terms.specs.Readable.{is_letter, is_name_byte};
ghost use Rattle.spec_data.specs.Digits.{is_digit, decimal_value, below};
ghost use Rattle.spec_text.specs.Lexis.{is_blank, keywords, symbols, word_in, word_kind, number_kind, symbol_in, symbol_prefix};

use spec_text::{Keyword, Kind, Symbol};

/// Whether the byte only stands between tokens.
pub fn is_blank(byte: u8) -> bool
    ensures { result ≡ is_blank byte }
{
    byte == b' ' || byte == b'\t' || byte == b'\n' || byte == b'\r'
}

fn is_letter(byte: u8) -> bool
    ensures { result ≡ is_letter byte }
{
    byte.is_ascii_alphabetic()
}

fn is_digit(byte: u8) -> bool
    ensures { result ≡ is_digit byte }
{
    byte.is_ascii_digit()
}

fn is_name_byte(byte: u8) -> bool
    ensures { result ≡ is_name_byte byte }
{
    is_letter(byte) || is_digit(byte) || byte == b'_'
}

/// How many bytes at the front can stand in a name.
fn name_length(bytes: &[u8]) -> usize
    ensures value { result ≡ length (take_while is_name_byte bytes.now) }
    ensures within { result ≤ length bytes.now }
{
    bytes.iter().take_while(|byte| is_name_byte(**byte)).count()
}

fn digit_length(bytes: &[u8]) -> usize
    ensures value { result ≡ length (take_while is_digit bytes.now) }
    ensures within { result ≤ length bytes.now }
{
    bytes.iter().take_while(|byte| is_digit(**byte)).count()
}

/// The keyword that a word is.
fn keyword_of(word: &[u8]) -> Option<Keyword>
    ensures { result ≡ word_in keywords word.now }
{
    if word == b"put".as_slice() {
        return Some(Keyword::Put);
    }
    if word == b"reveal".as_slice() {
        return Some(Keyword::Reveal);
    }
    if word == b"if".as_slice() {
        return Some(Keyword::If);
    }
    if word == b"withdraw".as_slice() {
        return Some(Keyword::Withdraw);
    }
    if word == b"split".as_slice() {
        return Some(Keyword::Split);
    }
    if word == b"after".as_slice() {
        return Some(Keyword::After);
    }
    if word == b"secret".as_slice() {
        return Some(Keyword::Secret);
    }
    if word == b"true".as_slice() {
        return Some(Keyword::True);
    }
    if word == b"and".as_slice() {
        return Some(Keyword::And);
    }
    if word == b"not".as_slice() {
        return Some(Keyword::Not);
    }
    if word == b"fee".as_slice() {
        return Some(Keyword::Fee);
    }
    if word == b"Outside".as_slice() {
        return Some(Keyword::Outside);
    }
    None
}

/// The kind of a word.
fn word_kind(word: &[u8]) -> Kind
    ensures { result ≡ word_kind word.now }
{
    match keyword_of(word) {
        Some(keyword) => Kind::Keyword(keyword),
        None if word.len() <= 32 => Kind::Name,
        None => Kind::LongName,
    }
}

/// The number that digits are, where it is below 2^64.
fn value_of(digits: &[u8]) -> Option<u64>
    ensures { result ≡ below (2 ^ 64) (decimal_value digits.now) }
{
    let mut value = 0u128;
    for digit in digits {
        value = value * 10 + digit.saturating_sub(b'0') as u128;
        if value >= 0x1_0000_0000_0000_0000 {
            return None;
        }
    }
    Some(value as u64)
}

/// The kind of digits.
fn number_kind(digits: &[u8]) -> Kind
    ensures { result ≡ number_kind digits.now }
{
    match value_of(digits) {
        Some(value) => Kind::Number(value),
        None => Kind::HugeNumber,
    }
}

/// The symbol of one byte.
fn symbol_of(byte: u8) -> Option<Symbol>
    ensures { result ≡ symbol_in symbols byte }
{
    match byte {
        b'{' => Some(Symbol::LeftBrace),
        b'}' => Some(Symbol::RightBrace),
        b'(' => Some(Symbol::LeftParen),
        b')' => Some(Symbol::RightParen),
        b'[' => Some(Symbol::LeftBracket),
        b']' => Some(Symbol::RightBracket),
        b':' => Some(Symbol::Colon),
        b'!' => Some(Symbol::Bang),
        b'?' => Some(Symbol::Question),
        b'@' => Some(Symbol::At),
        b'.' => Some(Symbol::Dot),
        b',' => Some(Symbol::Comma),
        b'&' => Some(Symbol::Ampersand),
        b'+' => Some(Symbol::Plus),
        b'-' => Some(Symbol::Minus),
        b'=' => Some(Symbol::Equal),
        b'<' => Some(Symbol::Less),
        b'|' => Some(Symbol::Bar),
        _ => None,
    }
}

/// The symbol that a byte is at the front.
#[tactic(auto, unfolding(spec_text::specs::Lexis::symbol_prefix))]
fn symbol_prefix(byte: u8) -> Option<(Kind, usize)>
    ensures value { result ≡ symbol_prefix byte }
    ensures within { IfSome result (λ f. f.1 ≡ 0) }
{
    let symbol = symbol_of(byte)?;
    Some((Kind::Symbol(symbol), 0))
}

/// The word at the front, which a letter begins, and how many bytes it has after its first.
fn word_at(bytes: &[u8]) -> (Kind, usize)
    requires { 0 < length bytes.now }
    ensures value { result ≡ word_at bytes.now }
    ensures within { result.1 < length bytes.now }
{
    let more = name_length(&bytes[1..]);
    (word_kind(&bytes[..more + 1]), more)
}

/// The number at the front, which a digit begins, and how many bytes it has after its first.
fn number_at(bytes: &[u8]) -> (Kind, usize)
    requires { 0 < length bytes.now }
    ensures value { result ≡ number_at bytes.now }
    ensures within { result.1 < length bytes.now }
{
    let more = digit_length(&bytes[1..]);
    (number_kind(&bytes[..more + 1]), more)
}

/// The token at the front, and how many bytes it has after its first.
#[tactic(auto, unfolding(crate::specs::Prefixes::word_at, crate::specs::Prefixes::number_at))]
pub fn prefix_of(bytes: &[u8]) -> Option<(Kind, usize)>
    ensures value { result ≡ prefix_of bytes.now }
    ensures within { IfSome result (λ f. f.1 < length bytes.now) }
{
    match bytes {
        [first, ..] if is_letter(*first) => Some(word_at(bytes)),
        [b'0', ..] => Some((Kind::Number(0), 0)),
        [first, ..] if is_digit(*first) => Some(number_at(bytes)),
        [b'-', b'>', ..] => Some((Kind::Symbol(Symbol::Arrow), 1)),
        [first, ..] => symbol_prefix(*first),
        [] => None,
    }
}
