//! The tokens of a whole text, with names by their numbers.

ghost use Rattle.std.specs.Prelude.{◌≡◌, ◌-◌, ◌^◌, ◌<◌, ◌≤◌, ◌⊎◌, List, Some, length, IfOk, OnOk};
ghost use Rattle.std.specs.Str.{chars};
ghost use Rattle.silq_lex.specs.Kinds.{kind_of, number_of};
ghost use Rattle.silq_lex.specs.Tokens.{Located, located_of, tokens_of};
ghost use Rattle.silq_lex.specs.declared.token.TokenKind.TheVariants as kinds;
ghost use Rattle.silq_parse.specs.Lexed.{token_of, all_tokens, named, names_with, names_of};
ghost use Rattle.silq_parse.specs.Endings.{ending_of};
ghost use Rattle.silq_parse.specs.Spelling.{spelled};

use crate::terminal::terminal;
use silq_grammar::{Terminal, Token};
use silq_lex::{LexFault, Lexer, Place, TokenKind, number};
use silq_tree::{Names, Spot};
use std::alloc::{AllocError, Global};

/// The tokens of a text up to its end or its first lexical fault.
#[derive(Drop)]
pub(crate) struct Lexed {
    pub(crate) tokens: Vec<Token>,
    pub(crate) names: Names,
    /// The place behind the last character, or the fault.
    pub(crate) ending: Result<Place, LexFault>,
}

/// The tokens of a text of at most 1,048,576 bytes, and its names in the order in which they first stand.
pub(crate) fn lex(alloc: Global, src: &str) -> Result<Lexed, AllocError>
    requires { length src.now ≤ 1048576 }
    ensures tokens { IfOk result (λ lexed. lexed.tokens.items ≡ all_tokens (tokens_of (chars src.now)).items) }
    ensures names { IfOk result (λ lexed. lexed.names ≡ names_of (tokens_of (chars src.now)).items) }
    ensures ending { IfOk result (λ lexed. ending_of lexed.ending ≡ (tokens_of (chars src.now)).ending) }
    ensures few { IfOk result (λ lexed. length lexed.tokens.items ≤ 1048576) }
{
    let mut lexer = Lexer::new(src);
    let mut tokens = Vec::new(alloc);
    let mut names = Names::new(alloc);
    loop {
        let ending = match lexer.next() {
            Ok(Some(token)) => {
                tokens.push(numbered(&mut names, &token)?)?;
                continue;
            }
            Ok(None) => Ok(lexer.end()),
            Err(fault) => Err(fault),
        };
        return Ok(Lexed {
            tokens,
            names,
            ending,
        });
    }
}

/// A token as the grammar sees it, where its name is added to the names.
fn numbered(names: &mut Names, token: &silq_lex::Token) -> Result<Token, AllocError>
    requires kind { kind_of (chars token.now.text.now) ≡ Some token.now.kind }
    requires fits { token.now.kind ≡ kinds.Number → number_of (chars token.now.text.now) < 2 ^ 63 }
    requires room { length names.old < 2 ^ 32 - 1 }
    ensures token { IfOk result (λ made. (more : List Located) → made ≡ token_of (names_with names.new more) (located_of token.now)) }
    ensures names { OnOk result (names.new ≡ named token.now.kind names.old token.now.text.now) }
{
    let at = Spot {
        line: token.line,
        col: token.col,
    };
    match token.kind {
        TokenKind::Name => Ok(Token::Name(names.intern(token.text)?, at)),
        TokenKind::Number => Ok(Token::Number(number(token.text), at)),
        TokenKind::Word | TokenKind::Sign => Ok(Token::Fixed(fixed(token.text), at)),
    }
}

/// The terminal of a reserved word or a sign.
fn fixed(text: &str) -> Terminal
    requires { (kind_of (chars text.now) ≡ Some kinds.Word) ⊎ (kind_of (chars text.now) ≡ Some kinds.Sign) }
    ensures { spelled text.now ≡ Some result }
{
    match terminal(text) {
        Some(terminal) => terminal,
        None => unreachable!(),
    }
}
