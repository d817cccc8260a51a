// A value with a model, an invariant and a list as fixed part: a board of cells that threads claim.
ghost use Rattle.std.specs.Prelude.{◌≡◌, ◌++◌, ◌∷◌, [], OnOk, OnErr};

use css_seen::Told;
use std::alloc::{AllocError, Global};
use std::collections::LinkedList;
use std::marker::Model;
use std::sync::Arc;

// The number of the pass, and the cell.
pub type Claim = (u64, u64);

#[derive(Drop)]
pub struct Board {
    plan: Vec<u64>,
    log: Vec<Claim>,
    // Another owner sees by it whether the board was dropped.
    alive: Arc<u64, Global>,
}

// Contracts see the plan and the claims.
impl Model for Board {
    ghost use Rattle.std.specs.Prelude.{◌<◌, ◌^◌, ℕ, List, vec_len};

    ghost Value = { List ℕ × List (ℕ × ℕ) };

    ghost view = { λ b. (b.plan.items, b.log.items) };

    ghost invariant = { λ b. vec_len b.log < 2 ^ 62 };
}

impl Board {
    pub fn new(alloc: Global, plan: Vec<u64>, alive: Arc<u64, Global>) -> Board
        ensures { result ≡ (plan.items, []) }
    {
        Board {
            plan,
            log: Vec::new(alloc),
            alive,
        }
    }

    pub fn claims(&self) -> usize {
        self.log.len()
    }

    // It stays as it was where there is no memory.
    pub fn claim(&mut self, by: u64, cell: u64) -> Result<(), AllocError>
        ensures ok { OnOk result (self.new.1 ≡ self.old.1 ++ (by, cell) ∷ []) }
        ensures err { OnErr result (self.new.1 ≡ self.old.1) }
        ensures plan { self.new.0 ≡ self.old.0 }
    {
        if self.log.len() >= (1 << 62) - 1 {
            return Err(AllocError);
        }
        self.log.push((by, cell))?;
        Ok(())
    }
}

impl Told for Board {
    type Entry = Claim;

    // Contracts see it as a list.
    type Fixed = LinkedList<u64>;

    ghost history = { λ b. b.1 };

    ghost maker = { λ e. e.0 };

    ghost fixed = { λ b. b.0 };

    fn entries(&self) -> u64 {
        self.log.len() as u64
    }
}
