//! The kinds of the tokens of a text.

ghost use Rattle.std.specs.Prelude.{◌≡◌, ◌≤◌, true, length, map, All, IfOk};
ghost use Rattle.std.specs.List.{list_all};
ghost use Rattle.std.specs.Char.{is_ascii_digit};
ghost use Rattle.std.specs.Str.{IsUtf8};
ghost use Rattle.tt_lex.specs.Lexis.{is_word_start, is_word_part};
ghost use Rattle.tt_value.specs.values.Texts.{IsText};
ghost use Rattle.tt_sql.specs.grammar.TokenKinds.{is_word as is_word_text, number_kind, text_kind, unquoted as unquoted_bytes};
ghost use Rattle.tt_terminal.specs.KindNumbers.{kind_number};
ghost use Rattle.tt_parse.specs.Lexing.{IsToken};
ghost use Rattle.tt_terminal.specs.Reading.{IsOf};

use crate::keywords::{sign_kind_of, word_kind_of};
use crate::wait::unit_of;
use std::alloc::{AllocError, Global};
use tt_lex::{Token, TokenKind};
use tt_terminal::kind::LexemeKind;
use tt_terminal::name::{bytes_of, value_of};
use tt_terminal::quoted::unquoted;
use tt_terminal::rest::Lexed;
use tt_time::{read_date, read_timestamp};

/// The most digits of a short number.
const MOST_SHORT_DIGITS: usize = 9;

/// The number that may stand only behind a minus.
const LEAST_NUMBER: u64 = 9_223_372_036_854_775_808;

/// The tokens of a text with their kinds.
pub fn lexed(alloc: Global, text: &[u8], tokens: &[Token]) -> Result<Vec<Lexed>, AllocError>
    requires { All (IsToken text.now) tokens.now }
    ensures tokens { IfOk result (λ list. map (λ l. l.token) list.items ≡ tokens.now) }
    ensures kinds { IfOk result (λ list. All (IsOf text.now) list.items) }
{
    let mut list = Vec::new(alloc);
    for token in tokens {
        list.push(lexed_of(alloc, text, *token)?)?;
    }
    Ok(list)
}

/// A token with its kind.
fn lexed_of(alloc: Global, text: &[u8], token: Token) -> Result<Lexed, AllocError>
    requires { IsToken text.now token }
    ensures token { IfOk result (λ l. l.token ≡ token) }
    ensures kind { IfOk result (IsOf text.now) }
{
    let bytes = bytes_of(text, token);
    let kind = match token.kind {
        TokenKind::Word => word_kind_of(bytes),
        TokenKind::Number => number_kind_of(bytes),
        TokenKind::Quoted => quoted_kind_of(alloc, bytes)?,
        TokenKind::Sign => sign_kind_of(bytes),
    };
    Ok(Lexed { token, kind })
}

/// The kind of a number.
#[tactic(auto, unfolding(tt_sql::specs::grammar::TokenKinds::number_kind))]
fn number_kind_of(digits: &[u8]) -> LexemeKind
    requires { list_all is_ascii_digit digits.now ≡ true }
    ensures { kind_number result ≡ number_kind digits.now }
{
    if digits.len() <= MOST_SHORT_DIGITS {
        return LexemeKind::ShortNumber;
    }
    let value = value_of(digits);
    if value < LEAST_NUMBER {
        LexemeKind::Number
    } else if value == LEAST_NUMBER {
        LexemeKind::LeastNumber
    } else {
        LexemeKind::LargeNumber
    }
}

/// The kind of a quoted text, which begins and ends with a quote.
fn quoted_kind_of(alloc: Global, bytes: &[u8]) -> Result<LexemeKind, AllocError>
    requires quotes { 2 ≤ length bytes.now }
    requires valid { IsUtf8 (unquoted_bytes bytes.now) }
    requires plain { IsText (unquoted_bytes bytes.now) }
    ensures { IfOk result (λ kind. kind_number kind ≡ text_kind (unquoted_bytes bytes.now)) }
{
    let text = unquoted(alloc, bytes)?;
    Ok(text_kind_of(text.as_str()))
}

/// The kind of what a quoted text means.
#[tactic(auto, unfolding(tt_sql::specs::grammar::TokenKinds::text_kind))]
fn text_kind_of(text: &str) -> LexemeKind
    ensures { kind_number result ≡ text_kind text.now }
{
    if read_date(text).is_ok() {
        return LexemeKind::DateText;
    }
    if read_timestamp(text).is_ok() {
        return LexemeKind::TimeText;
    }
    let bytes = text.as_bytes();
    if unit_of(bytes).is_some() {
        return LexemeKind::UnitText;
    }
    if is_word(bytes) && word_kind_of(bytes).is_name() {
        LexemeKind::NameText
    } else {
        LexemeKind::OtherText
    }
}

/// Whether these bytes are a word.
fn is_word(bytes: &[u8]) -> bool
    ensures { result ≡ is_word_text bytes.now }
{
    match bytes.split_first() {
        Some((first, others)) => begins_word(*first) && are_word_parts(others),
        None => false,
    }
}

fn are_word_parts(bytes: &[u8]) -> bool
    ensures { result ≡ list_all is_word_part bytes.now }
{
    bytes.iter().all(|byte| is_word_part(*byte))
}

fn begins_word(byte: u8) -> bool
    ensures { result ≡ is_word_start byte }
{
    byte.is_ascii_alphabetic() || byte == b'_'
}

fn is_word_part(byte: u8) -> bool
    ensures { result ≡ is_word_part byte }
{
    begins_word(byte) || byte.is_ascii_digit() || byte == b'$'
}
