//! The memory that a machine runs over.
ghost use Rattle.std.specs.Prelude.{◌≡◌, ℕ, IfOk, IfErr, OnOk, OnErr};
ghost use Rattle.css_semantics.specs.Dialogue.{Action, Enter, Leave, Load, Store, Reply, Says};
ghost use Rattle.css_semantics.specs.Memory.{big_endian_bytes};
ghost use Rattle.css_isa.specs.Spaces.{bytes_of, IsRefusal, IsStackPlace};

use css_base::Stop;

/// How many bytes an access has.
#[derive(Clone, Copy, PartialEq, Eq, Debug)]
pub enum Width {
    /// 1 byte.
    W8,
    /// 2 bytes.
    W16,
    /// 4 bytes.
    W32,
    /// 8 bytes.
    W64,
}

/// A memory with a stack of frames. Its meaning is how it replies to the actions of a memory, and what it becomes: so it says which
/// bytes are there, in which regions, and which rules refuse to load, to store or to leave them. A store that isn't refused may lift
/// such a rule from bytes: where a task's output is written, and where main stores into what tasks only read. No call takes memory.
pub trait Space {
    ghost use Rattle.std.specs.Prelude.{ℕ};
    ghost use Rattle.css_semantics.specs.Dialogue.{Action, Reply};
    ghost use Rattle.css_isa.specs.Spaces.{IsStackPlace};

    /// The reply to an action.
    ghost reply: { Self → Action → Reply };

    /// The space after an action.
    ghost learn: { Self → Action → Self };

    /// The address of the stack's first byte.
    ghost place: { Self → ℕ };

    /// Entries and leavings move it by a frame's size, and nothing else moves it.
    ghost place_moves: { IsStackPlace reply learn place };

    /// The big-endian value of the bytes from an address, without sign. The fault OutsideMemory where they aren't wholly live, or
    /// the rule that refuses the access; then the space stays as it is.
    fn load(&mut self, address: u32, width: Width) -> Result<u64, Stop>
        ensures says { IfOk result (λ value. reply self.old (Load address (bytes_of width)) ≡ Says value) }
        ensures refuses { IfErr result (λ stop. IsRefusal (reply self.old (Load address (bytes_of width))) stop) }
        ensures learns { OnOk result (self.new ≡ learn self.old (Load address (bytes_of width))) }
        ensures stays { OnErr result (self.new ≡ self.old) };

    /// Stores the low bytes of a value, big-endian. The fault OutsideMemory where they aren't wholly live, or the rule that refuses
    /// the access; then the space stays as it is.
    fn store(&mut self, address: u32, width: Width, value: u64) -> Result<(), Stop>
        ensures says { OnOk result ((r : ℕ) × (reply self.old (Store address (big_endian_bytes (bytes_of width) value)) ≡ Says r)) }
        ensures refuses { IfErr result (λ stop. IsRefusal (reply self.old (Store address (big_endian_bytes (bytes_of width) value))) stop) }
        ensures learns { OnOk result (self.new ≡ learn self.old (Store address (big_endian_bytes (bytes_of width) value))) }
        ensures stays { OnErr result (self.new ≡ self.old) };

    /// Enters a frame of zeros, and gives its base. The rule that refuses the entry, where the stack has no room for it; then the
    /// space stays as it is.
    fn push_frame(&mut self, size: u32) -> Result<u32, Stop>
        ensures says { IfOk result (λ base. reply self.old (Enter size) ≡ Says base) }
        ensures refuses { IfErr result (λ stop. IsRefusal (reply self.old (Enter size)) stop) }
        ensures learns { OnOk result (self.new ≡ learn self.old (Enter size)) }
        ensures stays { OnErr result (self.new ≡ self.old) };

    /// Leaves the frame of so many bytes at the stack's front. The rule that refuses to leave one of its bytes, or the fault
    /// OutsideMemory where no call with such a frame is open; then the space stays as it is.
    fn pop_frame(&mut self, size: u32) -> Result<(), Stop>
        ensures says { OnOk result ((r : ℕ) × (reply self.old (Leave (place self.old) size) ≡ Says r)) }
        ensures refuses { IfErr result (λ stop. IsRefusal (reply self.old (Leave (place self.old) size)) stop) }
        ensures learns { OnOk result (self.new ≡ learn self.old (Leave (place self.old) size)) }
        ensures stays { OnErr result (self.new ≡ self.old) };
}
