// A value with an invariant of its own: amounts that were added, up to a limit.
ghost use Rattle.std.specs.Prelude.{◌≡◌, ◌∷◌, ◌++◌, ◌<◌, ◌^◌, ℕ, OnOk, OnErr, [], vec_len};
ghost use Rattle.std.specs.List.{sum_by};

use css_seen::Told;
use std::alloc::{AllocError, Global};

// The number of the pass, and the amount.
pub type Added = (u64, u64);

#[derive(Drop)]
pub struct Tally {
    pub total: u64,
    // It never changes.
    pub limit: u64,
    pub log: Vec<Added>,
    ghost summed: { total ≡ sum_by (λ (e : ℕ × ℕ). e.1) log.items },
    ghost short: { vec_len log < 2 ^ 62 },
}

impl Tally {
    pub fn new(alloc: Global, limit: u64) -> Tally
        ensures log { result.log.items ≡ [] }
        ensures limit { result.limit ≡ limit }
    {
        Tally {
            total: 0,
            limit,
            log: Vec::new(alloc),
        }
    }

    // It stays as it was where there is no memory, or the total would pass the limit.
    pub fn add(&mut self, by: u64, amount: u64) -> Result<(), AllocError>
        ensures ok { OnOk result (self.new.log.items ≡ self.old.log.items ++ (by, amount) ∷ []) }
        ensures err { OnErr result (self.new.log.items ≡ self.old.log.items) }
        ensures limit { self.new.limit ≡ self.old.limit }
    {
        if self.log.len() >= (1 << 62) - 1
            || self.total > self.limit
            || amount > self.limit - self.total
        {
            return Err(AllocError);
        }
        self.log.push((by, amount))?;
        self.total += amount;
        Ok(())
    }
}

impl Told for Tally {
    type Entry = Added;

    type Fixed = u64;

    ghost history = { λ t. t.log.items };

    ghost maker = { λ e. e.0 };

    ghost fixed = { λ t. t.limit };

    fn entries(&self) -> u64 {
        self.log.len() as u64
    }
}
