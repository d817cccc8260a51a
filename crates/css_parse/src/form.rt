//! What a statement is by its first token.
ghost use Rattle.std.specs.Prelude.{◌≡◌};
ghost use Rattle.css_base.specs.Tokens.{kind_of};
ghost use Rattle.css_parse.specs.Forms.{form_of, form_of_punctuator, form_of_word};

use css_base::TokenKind;

/// What a statement is that is no expression.
#[derive(Clone, Copy, PartialEq, Eq, Debug)]
pub(crate) enum Form {
    Block,
    If,
    While,
    Do,
    For,
    Break,
    Continue,
    Return,
}

/// The form of what begins with a token, where it is no expression.
pub(crate) fn form_of(kind: &TokenKind) -> Option<Form>
    ensures { result ≡ form_of (kind_of kind.now) }
{
    match kind {
        TokenKind::Punctuator(bytes) => form_of_punctuator(bytes.as_slice()),
        TokenKind::Word(bytes) => form_of_word(bytes.as_slice()),
        _ => None,
    }
}

#[tactic(auto, unfolding(crate::specs::Forms::form_of_punctuator))]
fn form_of_punctuator(bytes: &[u8]) -> Option<Form>
    ensures { result ≡ form_of_punctuator bytes.now }
{
    if bytes == b"{".as_slice() {
        Some(Form::Block)
    } else {
        None
    }
}

#[tactic(auto, unfolding(crate::specs::Forms::form_of_word))]
fn form_of_word(bytes: &[u8]) -> Option<Form>
    ensures { result ≡ form_of_word bytes.now }
{
    if bytes == b"if".as_slice() {
        Some(Form::If)
    } else if bytes == b"while".as_slice() {
        Some(Form::While)
    } else if bytes == b"do".as_slice() {
        Some(Form::Do)
    } else if bytes == b"for".as_slice() {
        Some(Form::For)
    } else if bytes == b"break".as_slice() {
        Some(Form::Break)
    } else if bytes == b"continue".as_slice() {
        Some(Form::Continue)
    } else if bytes == b"return".as_slice() {
        Some(Form::Return)
    } else {
        None
    }
}
