//! Keywords of C99 (6.4.1).
ghost use Rattle.std.specs.Prelude.{◌≡◌, bytes_eq};
ghost use Rattle.std.specs.List.{list_any};
ghost use Rattle.css_tree.specs.Words.{is_keyword};

const KEYWORDS: [&[u8]; 37] = [
    b"auto",
    b"break",
    b"case",
    b"char",
    b"const",
    b"continue",
    b"default",
    b"do",
    b"double",
    b"else",
    b"enum",
    b"extern",
    b"float",
    b"for",
    b"goto",
    b"if",
    b"inline",
    b"int",
    b"long",
    b"register",
    b"restrict",
    b"return",
    b"short",
    b"signed",
    b"sizeof",
    b"static",
    b"struct",
    b"switch",
    b"typedef",
    b"union",
    b"unsigned",
    b"void",
    b"volatile",
    b"while",
    b"_Bool",
    b"_Complex",
    b"_Imaginary",
];

/// Whether a word is a keyword, and so no name.
#[tactic(auto, unfolding(css_tree::specs::Words::is_keyword))]
pub(crate) fn is_keyword(bytes: &[u8]) -> bool
    ensures { result ≡ is_keyword bytes.now }
{
    is_listed(&KEYWORDS, bytes)
}

/// Whether bytes are among some words.
pub(crate) fn is_listed(words: &[&[u8]], bytes: &[u8]) -> bool
    ensures { result ≡ list_any (λ word. bytes_eq bytes.now word.now) words.now }
{
    words.iter().any(|word| bytes == *word)
}
