//! Types by their words (C99 6.7.2).
ghost use Rattle.std.specs.Prelude.{◌≡◌, option_map, fold};
ghost use Rattle.css_types.specs.Shapes.{base, counts};
ghost use Rattle.css_types.specs.Types as spec;

use css_base::IntType;
use css_tree::Specifier;

/// What a type's words name: void, or an integer type.
#[derive(Clone, Copy, PartialEq, Eq, Debug)]
pub enum Base {
    Void,
    Integer(IntType),
}

/// How often each word that makes a type stands among some, where three are as many as more.
#[derive(Clone, Copy)]
struct Counts {
    voids: u8,
    chars: u8,
    shorts: u8,
    ints: u8,
    longs: u8,
    signeds: u8,
    unsigneds: u8,
}

/// The type that the words name, in whatever order they stand.
#[tactic(auto, unfolding(crate::specs::Types::named_by))]
pub fn named_by(words: &[Specifier]) -> Option<Base>
    ensures { option_map base result ≡ spec.named_by words.now }
{
    let counts = counted(words);
    if is_void_alone(counts) {
        return Some(Base::Void);
    }
    let kind = integer_of(counts)?;
    Some(Base::Integer(kind))
}

fn counted(words: &[Specifier]) -> Counts
    ensures { counts result ≡ spec.counted words.now }
{
    let mut all = Counts {
        voids: 0,
        chars: 0,
        shorts: 0,
        ints: 0,
        longs: 0,
        signeds: 0,
        unsigneds: 0,
    };
    for word in words {
        all = with_word(all, *word);
    }
    all
}

/// The counts with one word more; the words that name no type have no effect.
fn with_word(c: Counts, word: Specifier) -> Counts
    ensures { counts result ≡ spec.with_word (counts c) word }
{
    match word {
        Specifier::Void => Counts {
            voids: one_more(c.voids),
            ..c
        },
        Specifier::Char => Counts {
            chars: one_more(c.chars),
            ..c
        },
        Specifier::Short => Counts {
            shorts: one_more(c.shorts),
            ..c
        },
        Specifier::Int => Counts {
            ints: one_more(c.ints),
            ..c
        },
        Specifier::Long => Counts {
            longs: one_more(c.longs),
            ..c
        },
        Specifier::Signed => Counts {
            signeds: one_more(c.signeds),
            ..c
        },
        Specifier::Unsigned => Counts {
            unsigneds: one_more(c.unsigneds),
            ..c
        },
        _ => c,
    }
}

fn one_more(n: u8) -> u8
    ensures { result ≡ spec.one_more n }
{
    if n < 3 { n + 1 } else { 3 }
}

/// `void` and no other word.
fn is_void_alone(c: Counts) -> bool
    ensures { result ≡ spec.is_void_alone (counts c) }
{
    c.voids == 1
        && u32::from(c.chars)
            + u32::from(c.shorts)
            + u32::from(c.ints)
            + u32::from(c.longs)
            + u32::from(c.signeds)
            + u32::from(c.unsigneds)
            == 0
}

/// `char` with at most one of `signed` and `unsigned`.
fn is_char(c: Counts) -> bool
    ensures { result ≡ spec.is_char (counts c) }
{
    c.chars == 1
        && u32::from(c.voids) + u32::from(c.shorts) + u32::from(c.ints) + u32::from(c.longs) == 0
        && u32::from(c.signeds) + u32::from(c.unsigneds) <= 1
}

/// At most one `int`, at most one of `signed` and `unsigned`, and no `void` or `char`.
fn is_wide(c: Counts) -> bool
    ensures { result ≡ spec.is_wide (counts c) }
{
    u32::from(c.voids) + u32::from(c.chars) == 0
        && c.ints <= 1
        && u32::from(c.signeds) + u32::from(c.unsigneds) <= 1
}

fn signed_as(unsigneds: u8, signed: IntType, unsigned: IntType) -> IntType
    ensures { result ≡ spec.signed_as unsigneds signed unsigned }
{
    if unsigneds == 0 { signed } else { unsigned }
}

/// The integer type of the words.
fn integer_of(c: Counts) -> Option<IntType>
    ensures { result ≡ spec.integer_of (counts c) }
{
    if is_char(c) {
        return Some(if c.signeds == 0 {
            IntType::UChar
        } else {
            IntType::SChar
        });
    }
    if !is_wide(c) {
        return None;
    }
    if c.shorts == 1 && c.longs == 0 {
        Some(signed_as(c.unsigneds, IntType::Short, IntType::UShort))
    } else if c.shorts == 0 && c.longs == 1 {
        Some(signed_as(c.unsigneds, IntType::Long, IntType::ULong))
    } else if c.shorts == 0 && c.longs == 2 {
        Some(signed_as(c.unsigneds, IntType::LongLong, IntType::ULongLong))
    } else if u32::from(c.shorts) + u32::from(c.longs) == 0
        && u32::from(c.ints) + u32::from(c.signeds) + u32::from(c.unsigneds) >= 1
    {
        Some(signed_as(c.unsigneds, IntType::Int, IntType::UInt))
    } else {
        None
    }
}
