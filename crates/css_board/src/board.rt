//! The board.
ghost use Rattle.std.specs.Prelude.{◌≡◌, ◌≢◌, ◌<◌, ◌↔◌, ◌++◌, ◌∷◌, [], ℕ, true, false, Some, None, IfOk, IfErr, IfSome, IfNone, List, length, map, OnOk, OnErr, IsTrue};
ghost use Rattle.std.specs.Arc.{arc_value};
ghost use Rattle.css_base.specs.Limits.{IsInRange};
ghost use Rattle.css_vm.specs.Code.{code_of};
ghost use Rattle.css_task.specs.Alone.{Outs, Halted};
ghost use Rattle.css_yard.specs.Yards.{MaySubmit};
ghost use Rattle.css_graph.specs.Bundle.{takeable, bundle};
ghost use Rattle.css_history.specs.declared.entry.Entry.TheVariants as entries;
ghost use Rattle.css_history.specs.Terms.{terms_of};
ghost use Rattle.css_history.specs.Histories.{maker, submits, held, is_closed, is_starved, has_starved};
ghost use Rattle.css_history.specs.Rules.{IsNext, MayEnd};
ghost use Rattle.css_history.specs.Bodies.{IsOfBody};
ghost use Rattle.css_history.specs.Legal.{MayFollow, IsLegal};
ghost use Rattle.css_base.specs.declared.ending.Stop.{Stop as Cause};
ghost use Rattle.css_yard.specs.Values.{IsValue, IsFirstStop};
ghost use Rattle.css_history.specs.Seats.{IsFirst};
ghost use Rattle.css_board.specs.Cells.{IsEndBy, IsFoundMade};
ghost use Rattle.css_board.specs.Jobs.{AreJobs};
ghost use Rattle.css_board.specs.Lines.{line_of};
ghost use Rattle.css_board.specs.Boards.{graph, AreAllFinished, IfBundle, IfNothing};

use crate::bundle::readied;
use crate::cell::{Cell, front_from, set_end, stop_of};
use crate::ends::has_ready_inputs;
use crate::lines::lines_of;
use crate::lookup::{cell_at, value_of};
use crate::post::{Post, coming, held_by, let_go, posts_of, replace_held, set_starved};
use crate::taken::Taken;
use crate::telling::{producers_of, tell_end};
use css_base::{Buffer, Limits, Line, NoMemory, Stop};
use css_graph::{Chosen, Graph};
use css_history::{Entry, Fixed};
use css_record::{TaskRecord, VersionName};
use css_seen::{Lawful, Told};
use css_traces::{BoardLine, Items, Name};
use css_vm::Code;
use std::alloc::Global;
use std::marker::Model;
use std::sync::Arc;

/// The most entries of a history, but for those that are to come.
const MOST_ENTRIES: usize = 1 << 60;

/// The board of a generation. Contracts see what no entry changes, and the history, which is stored whole.
///
/// At every moment the history is legal, whoever makes its entries in whatever order: so the end of each task in it is the task's own.
#[derive(Drop)]
pub struct Board {
    alloc: Global,
    fixed: Fixed,
    history: Vec<Entry>,
    // Of each task, by its number.
    cells: Vec<Cell>,
    // Of each worker.
    posts: Vec<Post>,
    graph: Graph,
    // How many of the first tasks are finished.
    front: usize,
    closed: bool,
    starved: bool,
}

impl Model for Board {
    ghost use Rattle.std.specs.Prelude.{vec_capacity};
    ghost use Rattle.css_board.specs.Boards.{State, IsBoard};

    ghost Value = { State };

    ghost view = { λ b. record { fixed = b.fixed; history = b.history.items } };

    ghost invariant = { λ b. IsBoard b.fixed b.history.items b.cells.items b.posts.items b.graph b.front b.closed b.starved (vec_capacity b.history) };
}

impl Board {
    /// A board with no entries, whose first task has this number.
    pub fn new(
        alloc: Global,
        first: u64,
        code: Arc<Code>,
        limits: &Limits,
    ) -> Result<Board, NoMemory>
        requires limits { IsInRange limits.now }
        ensures history { IfOk result (λ b. b.history ≡ []) }
        ensures fixed { IfOk result (λ b. b.fixed ≡ record { first = first; code = code; limits = limits.now }) }
    {
        let workers = limits.workers;
        let posts = posts_of(alloc, workers)?;
        let history = Vec::with_capacity(alloc, workers as usize + 1)?;
        Ok(Board {
            alloc,
            fixed: Fixed {
                first,
                code,
                limits: *limits,
            },
            history,
            cells: Vec::new(alloc),
            posts,
            graph: Graph::new(alloc, workers),
            front: 0,
            closed: false,
            starved: false,
        })
    }

    /// Main submits a task. It has the next number, is one of the code, and its inputs are there and fit. Gives everything back where
    /// there is no memory.
    pub fn submit(
        &mut self,
        alloc: Global,
        rec: TaskRecord,
        given: Vec<Buffer>,
    ) -> Result<(), (TaskRecord, Vec<Buffer>)>
        requires next { IsNext self.old.fixed.first self.old.history rec }
        requires may { MaySubmit (code_of (arc_value self.old.fixed.code)) self.old.fixed.limits (submits self.old.history) rec given.items }
        ensures fixed { self.new.fixed ≡ self.old.fixed }
        ensures entered { OnOk result (self.new.history ≡ self.old.history ++ entries.Submit rec given.items ∷ []) }
        ensures unchanged { OnErr result (self.new.history ≡ self.old.history) }
        ensures back { IfErr result (λ e. (e.0 ≡ rec) × (e.1 ≡ given)) }
    {
        let Ok(producers) = producers_of(alloc, rec.inputs.as_slice()) else {
            return Err((rec, given));
        };
        let more = coming(&self.posts) + 2;
        if self.history.len() >= MOST_ENTRIES || more >= MOST_ENTRIES {
            return Err((rec, given));
        }
        let Ok(()) = self.history.reserve(more) else {
            return Err((rec, given));
        };
        let Ok(()) = self.cells.reserve(1) else {
            return Err((rec, given));
        };
        let Ok(()) = self
            .graph
            .add(alloc, rec.number, producers.as_slice(), rec.high)
        else {
            return Err((rec, given));
        };
        let submit = self.history.len();
        self.cells.push_reserved(Cell { submit, end: None });
        self.history.push_reserved(Entry::Submit {
            rec,
            given: Items::new(given),
        });
        Ok(())
    }

    /// A worker takes the bundle of the graph, if a task may be taken: it then holds its tasks behind those that it held, and gets
    /// their jobs. `Nothing` comes exactly where none may be taken. Neither it nor `NoMemory` changes anything.
    pub fn take(&mut self, alloc: Global, worker: u32) -> Result<Taken, NoMemory>
        requires worker { worker < self.old.fixed.limits.workers }
        ensures fixed { self.new.fixed ≡ self.old.fixed }
        ensures nothing { IfOk result (λ t. IfNothing t ((takeable (graph self.old).tasks ≡ []) × (self.new.history ≡ self.old.history))) }
        ensures something { IfOk result (λ t. IfBundle t (λ jobs. takeable (graph self.old).tasks ≢ [])) }
        ensures entered { IfOk result (λ t. IfBundle t (λ jobs. self.new.history ≡ self.old.history ++ entries.Take worker (bundle (graph self.old) self.old.fixed.limits.bundle) ∷ [])) }
        ensures jobs { IfOk result (λ t. IfBundle t (λ jobs. AreJobs (terms_of self.new.fixed) self.new.history [] (bundle (graph self.old) self.old.fixed.limits.bundle) jobs)) }
        ensures unchanged { OnErr result (self.new.history ≡ self.old.history) }
    {
        let most = self.fixed.limits.bundle;
        let more = coming(&self.posts) + most as usize + 2;
        if self.history.len() >= MOST_ENTRIES || more >= MOST_ENTRIES {
            return Err(NoMemory);
        }
        self.history.reserve(more)?;
        let Chosen::Bundle(numbers) = self.graph.choose_bundle(alloc, most)? else {
            return Ok(Taken::Nothing);
        };
        let first = self.fixed.first;
        let Ok((held, jobs)) = readied(
            alloc,
            &self.history,
            &self.cells,
            first,
            &self.posts,
            worker,
            &numbers,
        ) else {
            self.graph.back(&numbers);
            return Err(NoMemory);
        };
        replace_held(&mut self.posts, worker, held);
        self.history.push_reserved(Entry::Take {
            worker,
            numbers: Items::new(numbers),
        });
        Ok(Taken::Bundle(jobs))
    }

    /// What a worker holds, in the order in which it took it. Takes no memory.
    pub fn held(&self, worker: u32) -> &[u64]
        requires { worker < self.now.fixed.limits.workers }
        ensures { result.now ≡ held worker self.now.history }
    {
        held_by(&self.posts, worker)
    }

    /// A worker has run a task that it holds, which made these: what its body makes by itself over the values of its inputs. Takes no
    /// memory.
    pub fn finish(&mut self, worker: u32, number: u64, outs: Vec<Buffer>)
        requires worker { worker < self.old.fixed.limits.workers }
        requires holds { MayEnd self.old.history worker number }
        requires own { IsOfBody (terms_of self.old.fixed) self.old.history number (Outs outs.items) }
        ensures fixed { self.new.fixed ≡ self.old.fixed }
        ensures entered { self.new.history ≡ self.old.history ++ entries.Finish worker number outs.items ∷ [] }
    {
        self.end(
            worker,
            number,
            Entry::Finish {
                worker,
                number,
                outs: Items::new(outs),
            },
        );
    }

    /// A task that a worker holds has stopped, as its body stops by itself over the values of its inputs. Takes no memory.
    pub fn stop(&mut self, worker: u32, number: u64, stop: Stop, line: Line)
        requires worker { worker < self.old.fixed.limits.workers }
        requires holds { MayEnd self.old.history worker number }
        requires own { IsOfBody (terms_of self.old.fixed) self.old.history number (Halted stop line) }
        ensures fixed { self.new.fixed ≡ self.old.fixed }
        ensures entered { self.new.history ≡ self.old.history ++ entries.Stop worker number stop line ∷ [] }
    {
        self.end(
            worker,
            number,
            Entry::Stop {
                worker,
                number,
                stop,
                line,
            },
        );
    }

    // A task that a worker holds came to the end that an entry tells.
    fn end(&mut self, worker: u32, number: u64, entry: Entry)
        requires worker { worker < self.old.fixed.limits.workers }
        requires end { IsEndBy worker number entry }
        requires may { MayFollow (terms_of self.old.fixed) self.old.history entry }
        ensures fixed { self.new.fixed ≡ self.old.fixed }
        ensures entered { self.new.history ≡ self.old.history ++ entry ∷ [] }
    {
        let place = self.history.len();
        tell_end(&mut self.graph, number, &entry);
        set_end(&mut self.cells, (number - self.fixed.first) as usize, place);
        let_go(&mut self.posts, worker, number);
        self.history.push_reserved(entry);
        self.front = front_from(&self.history, &self.cells, self.front);
    }

    /// A worker gives back what it holds, which is something. Takes no memory.
    pub fn give_back(&mut self, worker: u32)
        requires worker { worker < self.old.fixed.limits.workers }
        requires something { held worker self.old.history ≢ [] }
        ensures fixed { self.new.fixed ≡ self.old.fixed }
        ensures entered { self.new.history ≡ self.old.history ++ entries.Back worker (held worker self.old.history) ∷ [] }
    {
        let numbers = replace_held(&mut self.posts, worker, Vec::new(self.alloc));
        self.graph.back(numbers.as_slice());
        self.history.push_reserved(Entry::Back {
            worker,
            numbers: Items::new(numbers),
        });
    }

    /// A worker had no memory, for the first time. Takes no memory.
    pub fn starve(&mut self, worker: u32)
        requires worker { worker < self.old.fixed.limits.workers }
        requires first { has_starved worker self.old.history ≡ false }
        ensures fixed { self.new.fixed ≡ self.old.fixed }
        ensures entered { self.new.history ≡ self.old.history ++ entries.Starved worker ∷ [] }
    {
        set_starved(&mut self.posts, worker);
        self.starved = true;
        self.history.push_reserved(Entry::Starved { worker });
    }

    /// Main submits no more. Takes no memory.
    pub fn close(&mut self)
        requires open { is_closed self.old.history ≡ false }
        ensures fixed { self.new.fixed ≡ self.old.fixed }
        ensures entered { self.new.history ≡ self.old.history ++ entries.Close ∷ [] }
    {
        self.closed = true;
        self.history.push_reserved(Entry::Close);
    }

    /// The value of a version, which a task makes. None exactly where it isn't there: so of a version that a task of the board makes,
    /// where that task isn't finished. Takes no memory.
    pub fn value(&self, version: VersionName) -> Option<&Buffer>
        ensures found { IfSome result (λ b. IsFoundMade self.now.history version b.now) }
        ensures value { IfSome result (λ b. IsValue (code_of (arc_value self.now.fixed.code)) self.now.fixed.limits.task_units (submits self.now.history) [] version b.now) }
        ensures none { IfNone result ((bytes : List ℕ) → ¬ IsFoundMade self.now.history version bytes) }
    {
        value_of(&self.history, &self.cells, self.fixed.first, version)
    }

    /// The task that stopped and below which all tasks of the board are finished, with its stop and line. None exactly where there is
    /// none. It is the first that stops. Takes no memory.
    pub fn first_stop(&self) -> Option<(u64, Stop, Line)>
        ensures is_first { IfSome result (λ r. IsFirst self.now.history r.0 r.1 r.2) }
        ensures stops { IfSome result (λ r. IsFirstStop (code_of (arc_value self.now.fixed.code)) self.now.fixed.limits.task_units (submits self.now.history) r.0 r.1 r.2) }
        ensures none { IfNone result ((n : ℕ) (stop : Cause) (line : ℕ) → ¬ IsFirst self.now.history n stop line) }
    {
        if self.front >= self.cells.len() {
            return None;
        }
        let cell = cell_at(&self.cells, self.front);
        stop_of(&self.history, cell)
    }

    /// What a trace shows of the history's entries, in order, by the names of the code's functions.
    pub fn lines(&self, alloc: Global, names: &[Name]) -> Result<Vec<BoardLine>, NoMemory>
        requires { length names.now ≡ length (code_of (arc_value self.now.fixed.code)).functions }
        ensures { IfOk result (λ v. v.items ≡ map (line_of names.now) self.now.history) }
    {
        lines_of(alloc, names, &self.history)
    }

    /// Whether each task is finished.
    pub fn all_done(&self) -> bool
        ensures { IsTrue result ↔ AreAllFinished self.now.history }
    {
        self.front == self.cells.len()
    }

    /// Whether a worker had no memory.
    pub fn starved(&self) -> bool
        ensures { result ≡ is_starved self.now.history }
    {
        self.starved
    }

    /// Whether main submits no more.
    pub fn closed(&self) -> bool
        ensures { result ≡ is_closed self.now.history }
    {
        self.closed
    }

    /// Whether a worker holds a task whose made inputs are finished, so that it may say how it ended. Takes no memory.
    pub fn may_end(&self, worker: u32, number: u64) -> bool
        requires { worker < self.now.fixed.limits.workers }
        ensures { IsTrue result ↔ MayEnd self.now.history worker number }
    {
        if !held_by(&self.posts, worker).contains(&number) {
            return false;
        }
        has_ready_inputs(&self.history, &self.cells, self.fixed.first, number)
    }

    /// Whether a task may be taken, so that `take` would not answer `Nothing`.
    pub fn may_take(&self) -> bool
        ensures { IsTrue result ↔ (takeable (graph self.now).tasks ≢ []) }
    {
        self.graph.may_choose()
    }
}

impl Told for Board {
    type Entry = Entry;

    type Fixed = Fixed;

    ghost history = { λ b. b.history };

    ghost maker = { maker };

    ghost fixed = { λ b. b.fixed };

    fn entries(&self) -> u64 {
        self.history.len() as u64
    }
}

impl Lawful for Board {
    ghost legal = { IsLegal };

    fn is_legal(&self) {
        let _entries = self.history.len();
    }
}
