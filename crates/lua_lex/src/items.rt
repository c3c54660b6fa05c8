ghost use Rattle.std.specs.Prelude.{◌≡◌, ◌≤◌, ◌<◌, length, drop, not, if◌then◌else◌, IfOk, Ok};
ghost use Rattle.std.specs.List.{prefix_len};
ghost use Rattle.lua_lex.specs.Lines.{is_break};
ghost use Rattle.lua_lex.specs.Long.{begins};
ghost use Rattle.lua_lex.specs.Rules.{IsFirst, Rule, class_of, comment_class, begins_with_digit};

use crate::long::{level, long_len};
use crate::quotes::after_string;
use crate::runs::{name_len, numeral_len};
use crate::symbols::symbol;
use crate::words::word_kind;
use crate::{LexKind, TokenKind};
use memchr::memchr2;
use rs_whole::literal;

/// What stands at the front of a text: a token, or white space or a comment, and how many bytes it has.
#[derive(Clone, Copy)]
pub struct Item {
    pub kind: Option<TokenKind>,
    pub len: usize,
}

/// What a text begins with, as its first bytes tell.
#[derive(Clone, Copy)]
pub enum Class {
    Blank,
    LineComment,
    LongComment,
    Word,
    Numeral,
    Quoted,
    LongString,
    Symbol,
}

/// The item at the front of `text`.
pub fn first_item(text: &[u8]) -> Result<Item, LexKind>
    requires { 0 < length text.now }
    ensures first { IsFirst text.now result }
    ensures some { IfOk result (λ item. 0 < item.len) }
    ensures within { IfOk result (λ item. item.len ≤ length text.now) }
{
    match class_of(text) {
        Class::Blank => Ok(Item { kind: None, len: 1 }),
        Class::LineComment => Ok(line_comment(text)),
        Class::LongComment => long_comment(text),
        Class::Word => Ok(word(text)),
        Class::Numeral => numeral(text),
        Class::Quoted => quoted(text),
        Class::LongString => long_string(text),
        Class::Symbol => symbol_item(text),
    }
}

#[tactic(auto, unfolding(crate::specs::Rules::class_of))]
fn class_of(text: &[u8]) -> Class
    ensures { result ≡ class_of text.now }
{
    let Some((first, rest)) = text.split_first() else {
        return Class::Symbol;
    };
    match *first {
        b' ' | b'\t'..=b'\r' => Class::Blank,
        b'A'..=b'Z' | b'a'..=b'z' | b'_' => Class::Word,
        b'0'..=b'9' => Class::Numeral,
        b'"' | b'\'' => Class::Quoted,
        b'.' if begins_with_digit(rest) => Class::Numeral,
        b'[' if level(rest).is_some() => Class::LongString,
        b'-' => dash_class(rest),
        _ => Class::Symbol,
    }
}

fn begins_with_digit(text: &[u8]) -> bool
    ensures { result ≡ begins_with_digit text.now }
{
    match text.split_first() {
        Some((first, _)) => first.is_ascii_digit(),
        None => false,
    }
}

// The class of a text that goes on with `text` behind a `-`.
fn dash_class(text: &[u8]) -> Class
    ensures { result ≡ (if begins 45 text.now then comment_class (drop 1 text.now) else Class.Symbol) }
{
    match text.split_first() {
        Some((b'-', comment)) => comment_class(comment),
        _ => Class::Symbol,
    }
}

fn comment_class(text: &[u8]) -> Class
    ensures { result ≡ comment_class text.now }
{
    match text.split_first() {
        Some((b'[', rest)) if level(rest).is_some() => Class::LongComment,
        _ => Class::LineComment,
    }
}

fn line_comment(text: &[u8]) -> Item
    requires { class_of text.now ≡ Class.LineComment }
    ensures rule { Rule Class.LineComment text.now (Ok result) }
    ensures some { 0 < result.len }
    ensures within { result.len ≤ length text.now }
{
    let (_, comment) = text.split_at(2);
    Item {
        kind: None,
        len: 2 + line_len(comment),
    }
}

// How many bytes stand before the first line break.
fn line_len(text: &[u8]) -> usize
    ensures value { result ≡ prefix_len (λ b. not (is_break b)) text.now }
    ensures within { result ≤ length text.now }
{
    memchr2(b'\n', b'\r', text).unwrap_or(text.len())
}

fn long_comment(text: &[u8]) -> Result<Item, LexKind>
    requires { class_of text.now ≡ Class.LongComment }
    ensures rule { Rule Class.LongComment text.now result }
    ensures some { IfOk result (λ item. 0 < item.len) }
    ensures within { IfOk result (λ item. item.len ≤ length text.now) }
{
    let (_, bracket) = text.split_at(3);
    match long_len(bracket) {
        Some(len) => Ok(Item {
            kind: None,
            len: 3 + len,
        }),
        None => Err(LexKind::OpenLong),
    }
}

fn word(text: &[u8]) -> Item
    requires { class_of text.now ≡ Class.Word }
    ensures rule { Rule Class.Word text.now (Ok result) }
    ensures some { 0 < result.len }
    ensures within { result.len ≤ length text.now }
{
    let len = name_len(text);
    let (word, _) = text.split_at(len);
    Item {
        kind: Some(word_kind(word)),
        len,
    }
}

fn numeral(text: &[u8]) -> Result<Item, LexKind>
    requires { class_of text.now ≡ Class.Numeral }
    ensures rule { Rule Class.Numeral text.now result }
    ensures some { IfOk result (λ item. 0 < item.len) }
    ensures within { IfOk result (λ item. item.len ≤ length text.now) }
{
    let (run, _) = text.split_at(numeral_len(text));
    match literal(run) {
        Some(Ok(n)) => Ok(Item {
            kind: Some(TokenKind::Number(n)),
            len: run.len(),
        }),
        Some(Err(_)) => Err(LexKind::NotWhole),
        None => Err(LexKind::BadNumber),
    }
}

fn quoted(text: &[u8]) -> Result<Item, LexKind>
    requires { 0 < length text.now }
    ensures rule { Rule Class.Quoted text.now result }
    ensures some { IfOk result (λ item. 0 < item.len) }
    ensures within { IfOk result (λ item. item.len ≤ length text.now) }
{
    let (quote, string) = text.split_at(1);
    let rest = after_string(quote[0], string)?;
    Ok(Item {
        kind: Some(TokenKind::Text),
        len: text.len() - rest.len(),
    })
}

fn long_string(text: &[u8]) -> Result<Item, LexKind>
    requires { 0 < length text.now }
    ensures rule { Rule Class.LongString text.now result }
    ensures some { IfOk result (λ item. 0 < item.len) }
    ensures within { IfOk result (λ item. item.len ≤ length text.now) }
{
    let (_, bracket) = text.split_at(1);
    match long_len(bracket) {
        Some(len) => Ok(Item {
            kind: Some(TokenKind::Text),
            len: 1 + len,
        }),
        None => Err(LexKind::OpenLong),
    }
}

fn symbol_item(text: &[u8]) -> Result<Item, LexKind>
    ensures rule { Rule Class.Symbol text.now result }
    ensures some { IfOk result (λ item. 0 < item.len) }
    ensures within { IfOk result (λ item. item.len ≤ length text.now) }
{
    match symbol(text) {
        Some((kind, len)) => Ok(Item {
            kind: Some(kind),
            len,
        }),
        None => Err(LexKind::BadByte),
    }
}
