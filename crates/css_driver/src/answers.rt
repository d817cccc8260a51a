//! Answers to words, requests and texts.
ghost use Rattle.std.specs.Prelude.{◌≡◌, ◌⊎◌, ◌+◌, ℕ, List, Contains};
ghost use Rattle.css_base.specs.Limits.{IsInRange};
ghost use Rattle.css_lex.specs.Lexing.{longest_text};
ghost use Rattle.css_io.specs.Changes.{change};
ghost use Rattle.css_words.specs.declared.command.Command.{Command as Order};
ghost use Rattle.css_driver.specs.Answer.{IsTextAnswer, too_long, words_refused, no_memory};
ghost use Rattle.css_driver.specs.Request.{Offer, offer_of, Asks, AreRefused, IsServed};
ghost use Rattle.css_driver.specs.Ends.{Ends, Finishes, CallEnds};

use crate::check::check_text;
use crate::erased_text::erased_text;
use crate::finish::{
    NO_MEMORY, NO_MEMORY_STATUS, READ_FAULT, READ_FAULT_STATUS, WORDS_REFUSED,
    WORDS_REFUSED_STATUS, finish, refuse,
};
use crate::laws::one_text_answer;
use crate::run_text::run_text;
use css_base::{Line, StaticFault, StaticName, Words};
use css_io::{Shelf, ShelfFault, Sink};
use css_words::{Built, Command, Request, WordsFault, read_words};
use std::alloc::Global;

/// The most bytes of a program's text.
const TEXT_LIMIT: usize = 4_194_304;

/// Does what the words ask for, of what is offered: `check`, `erased` and `run` at most.
pub(crate) fn answer_words<S: Shelf, O: Sink, R: Sink>(
    alloc: Global,
    words: &Words,
    built: &Built<'_>,
    shelf: &mut S,
    out: &mut O,
    report: &mut R,
) -> u8
    requires served { (order : Order) → Contains built.now.commands.now order → IsServed order }
    ensures ends { CallEnds (offer_of built.now) words.now (S.file shelf.old) (S.faults shelf.old) (S.faults shelf.new)
        (change O.written O.faults out.old out.new) (change R.written R.faults report.old report.new) result }
    ensures refused { AreRefused (offer_of built.now) words.now → Finishes (change R.written R.faults report.old report.new) words_refused 2 result
        ⊎ Finishes (change R.written R.faults report.old report.new) no_memory 8 result }
    ensures untouched { AreRefused (offer_of built.now) words.now → (shelf.new ≡ shelf.old) × (out.new ≡ out.old) }
{
    match read_words(alloc, words, built) {
        // One byte past the limit tells that a text is too long.
        Ok(request) => answer_request(alloc, &request, TEXT_LIMIT + 1, shelf, out, report),
        Err(WordsFault::Refused) => finish(report, WORDS_REFUSED, WORDS_REFUSED_STATUS),
        Err(WordsFault::NoMemory) => finish(report, NO_MEMORY, NO_MEMORY_STATUS),
    }
}

/// Reads the file that is asked for, up to this many bytes, and answers its text.
fn answer_request<S: Shelf, O: Sink, R: Sink>(
    alloc: Global,
    request: &Request,
    limit: usize,
    shelf: &mut S,
    out: &mut O,
    report: &mut R,
) -> u8
    requires limit { limit ≡ longest_text + 1 }
    requires limits { IsInRange request.now.limits }
    requires served { IsServed request.now.command }
    ensures { (offer : Offer) (words : List (List ℕ)) → Asks offer words request.now
        → CallEnds offer words (S.file shelf.old) (S.faults shelf.old) (S.faults shelf.new)
        (change O.written O.faults out.old out.new) (change R.written R.faults report.old report.new) result }
{
    // All texts that are too long have one answer.
    one_text_answer();
    match shelf.read_file(alloc, request.file.text(), limit) {
        Ok(text) => answer_text(alloc, request, text.as_slice(), out, report),
        Err(ShelfFault::Failed) => finish(report, READ_FAULT, READ_FAULT_STATUS),
        Err(ShelfFault::NoMemory) => finish(report, NO_MEMORY, NO_MEMORY_STATUS),
    }
}

/// Answers a text. Of one that is too long no more than one byte past the limit need be there.
fn answer_text<O: Sink, R: Sink>(
    alloc: Global,
    request: &Request,
    text: &[u8],
    out: &mut O,
    report: &mut R,
) -> u8
    requires limits { IsInRange request.now.limits }
    requires served { IsServed request.now.command }
    ensures { Ends (IsTextAnswer request.now text.now) (change O.written O.faults out.old out.new) (change R.written R.faults report.old report.new) result }
{
    one_text_answer();
    if text.len() > TEXT_LIMIT {
        return refuse(alloc, &too_long(), report);
    }
    match request.command {
        Command::Check => check_text(alloc, text, report),
        Command::Run => run_text(alloc, text, request.limits, out, report),
        _ => erased_text(alloc, text, request.limits, out, report),
    }
}

/// S1 with line 1.
fn too_long() -> StaticFault
    ensures { result ≡ too_long }
{
    StaticFault {
        name: StaticName::TooLong,
        line: Line::new(1),
    }
}
