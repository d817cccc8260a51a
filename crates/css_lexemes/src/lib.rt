//! Translation phases 1 to 3 of C99 5.1.1.2: splices, comments, logical lines and lexemes, what a lexeme stands for, and the text
//! that is left without its directives.
#![tactic(auto)]

mod characters;
mod comments;
mod erasure;
mod laws;
mod lexeme_class;
mod line_kind;
mod pieces;
mod source;
mod values;

pub use erasure::{erase, shown_text};
pub use laws::{lines_have_pieces, pieces_are_unique};
pub use lexeme_class::LexemeClass;
pub use line_kind::{LineKind, kind_of_line, without_blanks};
pub use pieces::{FirstPiece, Shape, first_piece};
pub use source::{SourceByte, splice_at};
pub use values::kind_of_lexeme;
