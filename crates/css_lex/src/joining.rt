//! Adjacent strings as one (C99 5.1.1.2 phase 6).
ghost use Rattle.std.specs.Prelude.{◌≡◌, ◌++◌, ◌∷◌, [], OnOk, IfOk, MatchResult};
ghost use Rattle.css_base.specs.Tokens.{Text, kind_of, lexeme, lexemes};
ghost use Rattle.css_lex.specs.Spelling.{join, joined};
ghost use Rattle.css_lex.specs.Joining.{joined_behind, IsNoText, IsGlued};

use css_base::{Bytes, NoMemory, Token, TokenKind};
use std::alloc::Global;

/// The bytes of a string, or what the token is where it is none.
fn text_of(kind: TokenKind) -> Result<Bytes, TokenKind>
    ensures { MatchResult result (λ bytes. kind_of kind ≡ Text bytes) (λ other. (other ≡ kind) × IsNoText (kind_of kind)) }
{
    match kind {
        TokenKind::Text(bytes) => Ok(bytes),
        other => Err(other),
    }
}

/// Two strings' bytes as one's.
fn both(front: Bytes, back: Bytes) -> Result<Bytes, NoMemory>
    ensures { IfOk result (λ bytes. bytes ≡ front ++ back) }
{
    let mut bytes = front.into_vec()?;
    bytes.extend_from_slice(back.as_slice())?;
    Ok(Bytes::new(bytes))
}

/// What two tokens next to each other are.
#[derive(Drop)]
pub(crate) enum Glued {
    /// One string.
    One(TokenKind),
    /// The two, which aren't two strings.
    Two(TokenKind, TokenKind),
}

/// Two tokens next to each other.
fn glue(first: TokenKind, second: TokenKind) -> Result<Glued, NoMemory>
    ensures { IfOk result (λ glued. IsGlued (kind_of first) (kind_of second) glued) }
{
    let front = match text_of(first) {
        Ok(front) => front,
        Err(kind) => return Ok(Glued::Two(kind, second)),
    };
    let back = match text_of(second) {
        Ok(back) => back,
        Err(kind) => return Ok(Glued::Two(TokenKind::Text(front), kind)),
    };
    let bytes = both(front, back)?;
    Ok(Glued::One(TokenKind::Text(bytes)))
}

/// Puts two tokens behind others, as one where both are strings.
fn push_two(tokens: &mut Vec<Token>, first: Token, second: Token) -> Result<(), NoMemory>
    ensures { OnOk result (lexemes tokens.new.items ≡ lexemes tokens.old.items ++ join (lexeme first) (lexeme second ∷ [])) }
{
    match glue(first.kind, second.kind)? {
        Glued::One(kind) => {
            tokens.push(Token {
                kind,
                line: first.line,
                place: first.place,
                end: second.end,
            })?;
        }
        Glued::Two(front, back) => {
            tokens.push(Token {
                kind: front,
                line: first.line,
                place: first.place,
                end: first.end,
            })?;
            tokens.push(Token {
                kind: back,
                line: second.line,
                place: second.place,
                end: second.end,
            })?;
        }
    }
    Ok(())
}

/// Puts a token behind others, as one with the string before it where both are strings.
fn push_joined(tokens: &mut Vec<Token>, token: Token) -> Result<(), NoMemory>
    ensures { OnOk result (lexemes tokens.new.items ≡ joined_behind (lexemes tokens.old.items) (lexeme token)) }
{
    let Some(last) = tokens.pop() else {
        tokens.push(token)?;
        return Ok(());
    };
    push_two(tokens, last, token)
}

/// Tokens with adjacent strings joined.
pub(crate) fn join_strings(alloc: Global, tokens: Vec<Token>) -> Result<Vec<Token>, NoMemory>
    ensures { IfOk result (λ all. lexemes all.items ≡ joined (lexemes tokens.items)) }
{
    let mut all = Vec::new(alloc);
    let mut rest = tokens.into_iter();
    while let Some(token) = rest.next() {
        push_joined(&mut all, token)?;
    }
    Ok(all)
}
