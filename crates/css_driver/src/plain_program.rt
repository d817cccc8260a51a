//! The commands that wait for nobody.
ghost use Rattle.std.specs.Prelude.{◌≡◌, ◌<◌, ◌≤◌, ◌⊎◌, ℕ, List, Some};
ghost use Rattle.css_base.specs.declared.static_fault.StaticFault.{StaticFault as Fault};
ghost use Rattle.css_io.specs.Changes.{change, HasFailed, Got};
ghost use Rattle.css_words.specs.declared.request.Request.{Request};
ghost use Rattle.css_driver.specs.Answer.{Answer, IsRefusedBy, IsTextAnswer, words_refused, read_fault};
ghost use Rattle.css_report.specs.Endings.{static_line};
ghost use Rattle.css_driver.specs.Request.{plain, Asks, AreRefused};
ghost use Rattle.css_driver.specs.Ends.{IsText, IsWhole, IsCutShort, IsStarved, IsSmooth, ShelfFailed, CallEnds};

use crate::answers::answer_words;
use crate::built::PLAIN_BUILT;
use crate::laws::one_answer;
use css_base::Words;
use css_io::{Shelf, Sink, Source};
use std::alloc::Global;

/// The commands that wait for nobody: `check` says whether a text is accepted, and `erased` runs its main with the pragmas erased, in
/// the memory and with the units that the words ask for. What main prints goes to `out`, and how it ended to `report`. The status is 0
/// where a text is accepted and at the result 0, 1 at another result, 2 where the words are refused, 3 where the text breaks a static
/// rule, 4 where main is at fault, 5 where it breaks a rule of the run, 6 where the file can't be read, 7 where a sink failed, and 8
/// where there was no memory. Always returns.
pub fn plain_top<S: Shelf, I: Source, O: Sink, R: Sink>(
    alloc: Global,
    words: &Words,
    shelf: &mut S,
    input: &mut I,
    out: &mut O,
    report: &mut R,
) -> u8
    // 2 comes exactly where the words are refused, unless the report fails or there is no memory to read them. The report is then
    // the line for it.
    ensures words { result ≡ 2 → AreRefused plain words.now × Got (change R.written R.faults report.old report.new) words_refused }
    ensures words_only { AreRefused plain words.now
        → (result ≡ 2) ⊎ ((result ≡ 7) × HasFailed (change R.written R.faults report.old report.new)) ⊎ (result ≡ 8) }

    // 6 comes only where the shelf's count for the file rose. The report is then the line for it, and `out` got nothing.
    ensures shelf { result ≡ 6 → ShelfFailed plain words.now (S.faults shelf.old) (S.faults shelf.new) }
    ensures shelf_report { result ≡ 6 → (O.written out.new ≡ O.written out.old)
        × Got (change R.written R.faults report.old report.new) read_fault }

    // 3 comes exactly where the text is refused by a static rule. The report is then the rule with its line.
    ensures refusal { result ≡ 3 → (request : Request) × (text : List ℕ) × (fault : Fault) × Asks plain words.now request
        × IsText plain words.now (S.file shelf.old) text × IsRefusedBy request.command text fault
        × Got (change R.written R.faults report.old report.new) (static_line fault.name fault.line) }
    ensures refusal_only { (request : Request) (text : List ℕ) (fault : Fault) → Asks plain words.now request
        → S.file shelf.old request.file ≡ Some text → IsRefusedBy request.command text fault → (result ≡ 3) ⊎ (6 ≤ result) }

    // A status below 6 is the answer's, with exactly the answer's bytes.
    ensures verdict { result < 6 → IsWhole plain words.now (S.file shelf.old)
        (change O.written O.faults out.old out.new) (change R.written R.faults report.old report.new) result }

    // 7 comes only where a sink's count rose: that of `out`, and nothing is reported then; or that of the report, in its last line.
    ensures sinks { result ≡ 7 → HasFailed (change O.written O.faults out.old out.new) ⊎ HasFailed (change R.written R.faults report.old report.new) }
    ensures sinks_got { result ≡ 7 → IsCutShort plain words.now (S.file shelf.old) (S.faults shelf.old) (S.faults shelf.new)
        (change O.written O.faults out.old out.new) (change R.written R.faults report.old report.new) }

    // 8 is want of memory. `out` got a prefix, and the report the line for it alone.
    ensures memory { result ≡ 8 → IsStarved plain words.now (S.file shelf.old)
        (change O.written O.faults out.old out.new) (change R.written R.faults report.old report.new) }
    ensures statuses { result ≤ 8 }

    // Where no count rose, the status is the answer's, or 8.
    ensures complete { IsSmooth plain words.now (S.faults shelf.old) (S.faults shelf.new)
        (change O.written O.faults out.old out.new) (change R.written R.faults report.old report.new)
        → (request : Request) (text : List ℕ) (a : Answer) → Asks plain words.now request → S.file shelf.old request.file ≡ Some text
        → IsTextAnswer request text a
        → (result ≡ a.status) ⊎ (result ≡ 8) }

    // What isn't read is as it was.
    ensures input { input.new ≡ input.old }
    ensures untouched { AreRefused plain words.now → (shelf.new ≡ shelf.old) × (out.new ≡ out.old) }

    // All of it in one: the ways in which a call ends.
    ensures ends { CallEnds plain words.now (S.file shelf.old) (S.faults shelf.old) (S.faults shelf.new)
        (change O.written O.faults out.old out.new) (change R.written R.faults report.old report.new) result }
{
    let _input = input;
    // Clauses that compare a call's answer with another one rest on there being no other.
    one_answer();
    answer_words(alloc, words, &PLAIN_BUILT, shelf, out, report)
}
