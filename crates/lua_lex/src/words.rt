ghost use Rattle.std.specs.Prelude.{◌≡◌};
ghost use Rattle.lua_lex.specs.Words.{word_kind, of_two, of_three, of_four, of_five, of_six, of_eight};

use crate::TokenKind;

/// The reserved word that `word` is, or a name.
#[tactic(auto, unfolding(crate::specs::Words::word_kind))]
pub fn word_kind(word: &[u8]) -> TokenKind
    ensures { result ≡ word_kind word.now }
{
    match word.len() {
        2 => of_two(word),
        3 => of_three(word),
        4 => of_four(word),
        5 => of_five(word),
        6 => of_six(word),
        8 => of_eight(word),
        _ => TokenKind::Name,
    }
}

fn of_two(word: &[u8]) -> TokenKind
    ensures { result ≡ of_two word.now }
{
    if word == b"do".as_slice() {
        return TokenKind::Do;
    }
    if word == b"if".as_slice() {
        return TokenKind::If;
    }
    if word == b"in".as_slice() {
        return TokenKind::In;
    }
    if word == b"or".as_slice() {
        return TokenKind::Or;
    }
    TokenKind::Name
}

fn of_three(word: &[u8]) -> TokenKind
    ensures { result ≡ of_three word.now }
{
    if word == b"and".as_slice() {
        return TokenKind::And;
    }
    if word == b"end".as_slice() {
        return TokenKind::End;
    }
    if word == b"for".as_slice() {
        return TokenKind::For;
    }
    if word == b"nil".as_slice() {
        return TokenKind::Nil;
    }
    if word == b"not".as_slice() {
        return TokenKind::Not;
    }
    TokenKind::Name
}

fn of_four(word: &[u8]) -> TokenKind
    ensures { result ≡ of_four word.now }
{
    if word == b"else".as_slice() {
        return TokenKind::Else;
    }
    if word == b"then".as_slice() {
        return TokenKind::Then;
    }
    if word == b"true".as_slice() {
        return TokenKind::True;
    }
    TokenKind::Name
}

fn of_five(word: &[u8]) -> TokenKind
    ensures { result ≡ of_five word.now }
{
    if word == b"break".as_slice() {
        return TokenKind::Break;
    }
    if word == b"false".as_slice() {
        return TokenKind::False;
    }
    if word == b"local".as_slice() {
        return TokenKind::Local;
    }
    if word == b"until".as_slice() {
        return TokenKind::Until;
    }
    if word == b"while".as_slice() {
        return TokenKind::While;
    }
    TokenKind::Name
}

fn of_six(word: &[u8]) -> TokenKind
    ensures { result ≡ of_six word.now }
{
    if word == b"elseif".as_slice() {
        return TokenKind::ElseIf;
    }
    if word == b"repeat".as_slice() {
        return TokenKind::Repeat;
    }
    if word == b"return".as_slice() {
        return TokenKind::Return;
    }
    TokenKind::Name
}

fn of_eight(word: &[u8]) -> TokenKind
    ensures { result ≡ of_eight word.now }
{
    if word == b"function".as_slice() {
        return TokenKind::Function;
    }
    TokenKind::Name
}
