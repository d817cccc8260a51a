//! Words that stand for something.
ghost use Rattle.std.specs.Prelude.{◌≡◌, map};
ghost use Rattle.css_traces.specs.Words.{value_in, head_words, stop_words};

use crate::kind::{EntryKind, Kind, TransferKind};
use css_base::{FaultKind, Rule, Stop};

/// The first words of lines.
static HEADS: [(&[u8], Kind); 15] = [
    (b"trace", Kind::Trace),
    (b"board", Kind::Board),
    (b"channel", Kind::Channel),
    (b"end", Kind::End),
    (b"s", Kind::Entry(EntryKind::Submit)),
    (b"t", Kind::Entry(EntryKind::Take)),
    (b"f", Kind::Entry(EntryKind::Finish)),
    (b"x", Kind::Entry(EntryKind::Stop)),
    (b"b", Kind::Entry(EntryKind::Back)),
    (b"w", Kind::Entry(EntryKind::Starved)),
    (b"c", Kind::Entry(EntryKind::Close)),
    (b"i", Kind::Transfer(TransferKind::Issue)),
    (b"o", Kind::Transfer(TransferKind::Out)),
    (b"d", Kind::Transfer(TransferKind::Finished)),
    (b"r", Kind::Transfer(TransferKind::Collected)),
];

/// What stopped a task: a fault by its name, or a rule by its number.
static STOPS: [(&[u8], Stop); 18] = [
    (b"DivideByZero", Stop::Fault(FaultKind::DivideByZero)),
    (b"OutsideMemory", Stop::Fault(FaultKind::OutsideMemory)),
    (b"X1", Stop::Rule(Rule::StartTwice)),
    (b"X2", Stop::Rule(Rule::FinishWithout)),
    (b"X3", Stop::Rule(Rule::Dimension)),
    (b"X4", Stop::Rule(Rule::TooLarge)),
    (b"X5", Stop::Rule(Rule::DeadArgument)),
    (b"X6", Stop::Rule(Rule::PartialOverlap)),
    (b"X7", Stop::Rule(Rule::AliasedArguments)),
    (b"X8", Stop::Rule(Rule::Unsynchronised)),
    (b"X9", Stop::Rule(Rule::OutsideArguments)),
    (b"X10", Stop::Rule(Rule::WroteInput)),
    (b"X11", Stop::Rule(Rule::ReadUnwritten)),
    (b"X12", Stop::Rule(Rule::LeftUnwritten)),
    (b"X13", Stop::Rule(Rule::TaskStack)),
    (b"X14", Stop::Rule(Rule::MainStack)),
    (b"X15", Stop::Rule(Rule::Units)),
    (b"X16", Stop::Rule(Rule::BadWait)),
];

/// What stands beside a word in a table.
fn find<T: Copy>(table: &[(&[u8], T)], word: &[u8]) -> Option<T>
    ensures { result ≡ value_in (map (λ e. (e.0.now, e.1)) table.now) word.now }
{
    for entry in table {
        if entry.0 == word {
            return Some(entry.1);
        }
    }
    None
}

/// What a line with this first word is.
pub(crate) fn kind_of(word: &[u8]) -> Option<Kind>
    ensures { result ≡ value_in head_words word.now }
{
    find(&HEADS, word)
}

/// What this word says of a stop.
pub(crate) fn stop_of(word: &[u8]) -> Option<Stop>
    ensures { result ≡ value_in stop_words word.now }
{
    find(&STOPS, word)
}
