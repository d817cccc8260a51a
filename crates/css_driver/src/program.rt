//! The whole program.
ghost use Rattle.std.specs.Prelude.{◌≡◌, ◌<◌, ◌≤◌, ◌⊎◌, ℕ, List, Some};
ghost use Rattle.css_base.specs.declared.static_fault.StaticFault.{StaticFault as Fault};
ghost use Rattle.css_io.specs.Changes.{change, HasFailed, Got};
ghost use Rattle.css_words.specs.declared.request.Request.{Request};
ghost use Rattle.css_driver.specs.Answer.{Answer, IsRefusedBy, IsTextAnswer, words_refused, read_fault};
ghost use Rattle.css_report.specs.Endings.{static_line};
ghost use Rattle.css_words.specs.declared.command.Command.TheVariants.{Run};
ghost use Rattle.css_driver.specs.Request.{whole, Asks, AreRefused};
ghost use Rattle.css_driver.specs.Ends.{IsText, IsWhole, IsCutShort, IsStarved, IsSmooth, ShelfFailed, CallEnds};
ghost use Rattle.css_driver.specs.Headline.{IsErasedRun, IsOfRun};

use crate::answers::answer_words;
use crate::built::BUILT;
use crate::laws::one_answer;
use css_base::Words;
use css_erasing::{
    erased_texts_spell_the_unmarked, points_are_the_erased_programs, verdict_is_the_erased_programs,
};
use css_io::{Gate, Shelf, Sink, Source};
use std::alloc::Global;
use std::sync::Wait;
use std::thread::Threads;

/// The whole program: `run` runs main with its tasks, in the order of the program, and every other command is as `plain_top` has it,
/// with its statuses. No thread is made yet, and no gate is called.
pub fn top<H, S: Shelf, I: Source, O: Sink, R: Sink, G: Gate>(
    rt: &H,
    alloc: Global,
    words: &Words,
    shelf: &mut S,
    input: &mut I,
    out: &mut O,
    report: &mut R,
    gate: G,
) -> u8
where
    H: Threads + Wait + Clone + Drop + Send + Sync + 'static,
    G: Send + Sync + Drop + 'static,
    // 2 comes exactly where the words are refused, unless the report fails or there is no memory to read them. The report is then
    // the line for it.
    ensures words { result ≡ 2 → AreRefused whole words.now × Got (change R.written R.faults report.old report.new) words_refused }
    ensures words_only { AreRefused whole words.now
        → (result ≡ 2) ⊎ ((result ≡ 7) × HasFailed (change R.written R.faults report.old report.new)) ⊎ (result ≡ 8) }

    // 6 comes only where the shelf's count for the file rose. The report is then the line for it, and `out` got nothing.
    ensures shelf { result ≡ 6 → ShelfFailed whole words.now (S.faults shelf.old) (S.faults shelf.new) }
    ensures shelf_report { result ≡ 6 → (O.written out.new ≡ O.written out.old)
        × Got (change R.written R.faults report.old report.new) read_fault }

    // 3 comes exactly where the text is refused by a static rule. The report is then the rule with its line.
    ensures refusal { result ≡ 3 → (request : Request) × (text : List ℕ) × (fault : Fault) × Asks whole words.now request
        × IsText whole words.now (S.file shelf.old) text × IsRefusedBy request.command text fault
        × Got (change R.written R.faults report.old report.new) (static_line fault.name fault.line) }
    ensures refusal_only { (request : Request) (text : List ℕ) (fault : Fault) → Asks whole words.now request
        → S.file shelf.old request.file ≡ Some text → IsRefusedBy request.command text fault → (result ≡ 3) ⊎ (6 ≤ result) }

    // A status below 6 is the answer's, with exactly the answer's bytes.
    ensures verdict { result < 6 → IsWhole whole words.now (S.file shelf.old)
        (change O.written O.faults out.old out.new) (change R.written R.faults report.old report.new) result }

    // 7 comes only where a sink's count rose: that of `out`, and nothing is reported then; or that of the report, in its last line.
    ensures sinks { result ≡ 7 → HasFailed (change O.written O.faults out.old out.new) ⊎ HasFailed (change R.written R.faults report.old report.new) }
    ensures sinks_got { result ≡ 7 → IsCutShort whole words.now (S.file shelf.old) (S.faults shelf.old) (S.faults shelf.new)
        (change O.written O.faults out.old out.new) (change R.written R.faults report.old report.new) }

    // 8 is want of memory. `out` got a prefix, and the report the line for it alone.
    ensures memory { result ≡ 8 → IsStarved whole words.now (S.file shelf.old)
        (change O.written O.faults out.old out.new) (change R.written R.faults report.old report.new) }
    ensures statuses { result ≤ 8 }

    // Where no count rose, the status is the answer's, or 8.
    ensures complete { IsSmooth whole words.now (S.faults shelf.old) (S.faults shelf.new)
        (change O.written O.faults out.old out.new) (change R.written R.faults report.old report.new)
        → (request : Request) (text : List ℕ) (a : Answer) → Asks whole words.now request → S.file shelf.old request.file ≡ Some text
        → IsTextAnswer request text a
        → (result ≡ a.status) ⊎ (result ≡ 8) }

    // What isn't read is as it was.
    ensures input { input.new ≡ input.old }
    ensures untouched { AreRefused whole words.now → (shelf.new ≡ shelf.old) × (out.new ≡ out.old) }

    // All of it in one: the ways in which a call ends.
    ensures ends { CallEnds whole words.now (S.file shelf.old) (S.faults shelf.old) (S.faults shelf.new)
        (change O.written O.faults out.old out.new) (change R.written R.faults report.old report.new) result }

    // Where a run ended, its output, report and status are a verdict's, and that of the text with its pragmas erased, up to the first
    // fault or rule in program order.
    ensures headline { (request : Request) (text : List ℕ) → Asks whole words.now request → request.command ≡ Run
        → S.file shelf.old request.file ≡ Some text → IsOfRun result
        → (a : Answer) × (result ≡ a.status) × Got (change O.written O.faults out.old out.new) a.out
        × Got (change R.written R.faults report.old report.new) a.report × IsErasedRun request.limits text a }
{
    let _rt = rt;
    let _gate = gate;
    let _input = input;
    // Clauses that compare a call's answer with another one rest on there being no other, and the headline on the laws of erasing.
    one_answer();
    erased_texts_spell_the_unmarked();
    points_are_the_erased_programs();
    verdict_is_the_erased_programs();
    answer_words(alloc, words, &BUILT, shelf, out, report)
}
