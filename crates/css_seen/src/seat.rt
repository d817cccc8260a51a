//! A pass with its lock.
ghost use Rattle.std.specs.Prelude.{◌≡◌, ◌≢◌, ◌<◌, ℕ, true, false, [], Some, IfOk, IfErr, OnOk, OnErr};
ghost use mathlib.Core.List.{IsPrefix};
ghost use Rattle.css_seen.specs.Views.{after_split, split_view, after_join, after_enter, after_leave};
ghost use Rattle.css_seen.specs.Entries.{entries_of, AllMade, AddsAtMostOne};
ghost use Rattle.css_seen.specs.Facts.{OthersAdd};

use crate::lawful::Lawful;
use crate::pass::Pass;
use crate::seen_lock::SeenLock;
use std::alloc::{AllocError, Global};
use std::marker::Model;
use std::sync::{Arc, Wait};

/// A pass with its lock. Contracts see what the pass knows.
#[derive(Drop)]
pub struct Seat<T: Lawful> {
    lock: Arc<SeenLock<T>, Global>,
    pass: Pass<T>,
}

impl<T: Lawful> Model for Seat<T> {
    ghost use Rattle.std.specs.Arc.{arc_value};
    ghost use Rattle.css_seen.specs.Views.{View};
    ghost use Rattle.css_seen.specs.Facts.{IsSeat};

    ghost Value = { View T.Entry T.Fixed };

    ghost view = { λ s. s.pass };

    ghost invariant = { λ s. IsSeat T.maker T.legal (arc_value s.lock) s.pass };
}

impl<T: Lawful> Seat<T> {
    /// A lock round a value with an empty history, and the first seat, which has number 0 and is outside. The value is gone where
    /// there is no memory.
    pub fn first(alloc: Global, value: T) -> Result<Seat<T>, AllocError>
        requires empty { T.history value ≡ [] }
        ensures number { IfOk result (λ s. s.number ≡ 0) }
        ensures outside { IfOk result (λ s. s.inside ≡ false) }
        ensures seen { IfOk result (λ s. s.seen ≡ []) }
        ensures made { IfOk result (λ s. s.made ≡ []) }
        ensures joined { IfOk result (λ s. s.joined ≡ []) }
        ensures splits { IfOk result (λ s. s.splits ≡ 0) }
        ensures fixed { IfOk result (λ s. s.fixed ≡ Some (T.fixed value)) }
    {
        value.is_legal();
        let Ok((lock, pass)) = SeenLock::new(alloc, value) else {
            return Err(AllocError);
        };
        let lock = Arc::new(alloc, lock)?;
        Ok(Seat { lock, pass })
    }

    /// A new seat, split off the first before anything was entered. The only error is that the seats are too many to be counted.
    pub fn split(&mut self) -> Result<Seat<T>, AllocError>
        requires outside { self.old.inside ≡ false }
        requires first { self.old.number ≡ 0 }
        requires unused { self.old.seen ≡ [] }
        ensures counted { OnOk result (self.new ≡ after_split self.old) }
        ensures new { IfOk result (λ s. s ≡ split_view self.old) }
        ensures unchanged { OnErr result (self.new ≡ self.old) }
    {
        let lock = Arc::try_clone(&self.lock)?;
        let pass = lock.split(&mut self.pass);
        Ok(Seat { lock, pass })
    }

    /// Takes the value. Others have added to its history, and nobody else, and it is legal.
    pub fn enter<H: Wait>(&mut self, rt: &H) -> T
        requires outside { self.old.inside ≡ false }
        ensures entered { self.new ≡ after_enter self.old (T.history result) }
        ensures others { OthersAdd T.maker self.old.number self.old.seen (T.history result) }
        ensures legal { T.legal (T.fixed result) (T.history result) }
        ensures joined { AllMade T.maker (T.history result) self.old.joined }
        ensures never_given { self.old.number ≡ 0 → (n : ℕ) → self.old.splits < n → entries_of T.maker n (T.history result) ≡ [] }
        ensures fixed { self.old.fixed ≡ Some (T.fixed result) }
    {
        let value = self.lock.enter(rt, &mut self.pass);
        value.is_legal();
        value
    }

    /// Gives the value back, with one entry more at most, of this seat.
    pub fn leave(&mut self, value: T)
        requires inside { self.old.inside ≡ true }
        requires adds { AddsAtMostOne T.maker self.old.number self.old.seen (T.history value) }
        requires fixed { self.old.fixed ≡ Some (T.fixed value) }
        ensures left { self.new ≡ after_leave self.old (T.history value) }
    {
        value.is_legal();
        self.lock.leave(&mut self.pass, value);
    }

    /// Sleeps until somebody leaves.
    pub fn wait<H: Wait>(&mut self, rt: &H)
        requires outside { self.old.inside ≡ false }
        ensures { self.new ≡ self.old }
    {
        self.lock.wait(rt, &mut self.pass);
    }
}
