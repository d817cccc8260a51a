// A value with an empty fixed part: who was here, in order, and whose turn it is.
ghost use Rattle.std.specs.Prelude.{◌≡◌, ◌∷◌, ◌++◌, ◌<◌, ◌^◌, [], false, true, vec_len};

use css_seen::Told;
use std::alloc::Global;

#[derive(Drop)]
pub struct Relay {
    pub visits: Vec<u64>,
    pub turn: u64,
    ghost short: { vec_len visits < 2 ^ 63 },
}

impl Relay {
    pub fn new(alloc: Global) -> Relay
        ensures { result.visits.items ≡ [] }
    {
        Relay {
            visits: Vec::new(alloc),
            turn: 1,
        }
    }

    // Notes a visit, and hands the turn on, if there is memory.
    pub fn visit(&mut self, me: u64, next: u64) -> bool
        ensures yes { result ≡ true → self.new.visits.items ≡ self.old.visits.items ++ me ∷ [] }
        ensures no { result ≡ false → self.new.visits.items ≡ self.old.visits.items }
    {
        let done = self.visits.len() < (1 << 63) - 1 && self.visits.push(me).is_ok();
        if done {
            self.turn = next;
        }
        done
    }
}

impl Told for Relay {
    type Entry = u64;

    type Fixed = ();

    ghost history = { λ r. r.visits.items };

    ghost maker = { λ e. e };

    ghost fixed = { λ _. tt };

    fn entries(&self) -> u64 {
        self.visits.len() as u64
    }
}
