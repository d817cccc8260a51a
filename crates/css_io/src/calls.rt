//! The calls of an object in memory.
ghost use Rattle.std.specs.Prelude.{◌≡◌, ◌↔◌, IsTrue, Contains};
ghost use Rattle.css_io.specs.Calls.{one_more};

/// The number of the next call of an object, and the numbers of the calls that fail.
#[derive(Drop)]
pub(crate) struct Calls {
    pub(crate) next: u64,
    pub(crate) failing: Vec<u64>,
}

impl Calls {
    /// Calls from number 0 on, of which these fail.
    pub(crate) fn new(failing: Vec<u64>) -> Calls
        ensures first { result.next ≡ 0 }
        ensures failing { result.failing.items ≡ failing.items }
    {
        Calls { next: 0, failing }
    }

    /// Numbers a call, and says whether it fails.
    pub(crate) fn fails_next(&mut self) -> bool
        ensures fails { IsTrue result ↔ Contains self.old.failing.items self.old.next }
        ensures numbered { self.new.next ≡ one_more self.old.next }
        ensures same { self.new.failing.items ≡ self.old.failing.items }
    {
        let number = self.next;
        self.next = number.saturating_add(1);
        self.failing.contains(&number)
    }
}
