//! Tokens of a text.

use silq_lex::{LexCause, LexFault, Lexer, Token, TokenKind, number};
use std::alloc::{AllocError, Global};

// The most bytes of a text.
const MOST: usize = 1000;

fn kind_word(kind: TokenKind) -> &'static str {
    match kind {
        TokenKind::Name => "Name",
        TokenKind::Word => "Word",
        TokenKind::Number => "Number",
        TokenKind::Sign => "Sign",
    }
}

fn cause_word(cause: LexCause) -> &'static str {
    match cause {
        LexCause::Character => "Character",
        LexCause::Number => "Number",
        LexCause::Comment => "Comment",
    }
}

fn add_token(out: &mut String, token: Token<'_>) -> Result<(), AllocError> {
    let kind = kind_word(token.kind);
    let (text, start, line, col) = (token.text, token.start, token.line, token.col);
    write!(out, "{kind} {text} {start} {line}:{col}, ")
}

// Adds a fault, and whether the next call answers another one.
fn add_fault(out: &mut String, fault: LexFault, stays: bool) -> Result<(), AllocError> {
    let cause = cause_word(fault.cause);
    let (line, col) = (fault.line, fault.col);
    let then = if stays { "" } else { ", then another" };
    write!(out, "{cause} {line}:{col}{then}")
}

/// The tokens of a text with their places, and how they end.
pub fn tokens(alloc: Global, text: &str) -> Result<String, AllocError> {
    let mut out = String::new(alloc);
    if text.len() > MOST {
        return Ok(out);
    }
    let mut lexer = Lexer::new(text);
    for _ in 0..MOST + 1 {
        match lexer.next() {
            Ok(Some(token)) => add_token(&mut out, token)?,
            Ok(None) => {
                let end = lexer.end();
                let (line, col) = (end.line, end.col);
                write!(out, "end {line}:{col}")?;
                return Ok(out);
            }
            Err(fault) => {
                let stays = lexer.next().err() == Some(fault);
                add_fault(&mut out, fault, stays)?;
                return Ok(out);
            }
        }
    }
    Ok(out)
}

// The kind of a text that is one token.
fn lone_kind(text: &str) -> Option<TokenKind> {
    if text.len() > MOST {
        return None;
    }
    let mut lexer = Lexer::new(text);
    match lexer.next() {
        Ok(Some(token)) if token.text == text && lexer.next() == Ok(None) => Some(token.kind),
        _ => None,
    }
}

/// The kind of the words of a text, each of which is one token; or the first word that is not of the first one's kind.
pub fn lone(alloc: Global, text: &str) -> Result<String, AllocError> {
    let mut words = text.split(' ');
    let kind = words.next().and_then(lone_kind);
    for word in words {
        if lone_kind(word) != kind {
            return String::from_str(alloc, word);
        }
    }
    String::from_str(alloc, kind.map_or("no token", kind_word))
}

/// The number that a text begins with.
pub fn first_number(alloc: Global, text: &str) -> Result<String, AllocError> {
    if text.len() > MOST {
        return String::from_str(alloc, "long");
    }
    let mut lexer = Lexer::new(text);
    match lexer.next() {
        Ok(Some(token)) if token.kind == TokenKind::Number => number(token.text).to_string(alloc),
        _ => String::from_str(alloc, "no number"),
    }
}
