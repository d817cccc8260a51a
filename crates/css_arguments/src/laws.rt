//! Laws of the definitions: what a layout says of main's memory. It is what the contract of an empty function says.
ghost use Rattle.std.specs.Prelude.{◌≡◌, ◌≤◌, ℕ, length};
ghost use Rattle.css_semantics.specs.Memory.{Memory, heap_top, stack_place, is_live_byte};
ghost use Rattle.css_semantics.specs.Flat.{IsLaidOut};
ghost use Rattle.css_semantics.specs.Tasks.{Window};
ghost use Rattle.css_semantics.specs.Rules.{all_of_window};
ghost use Rattle.css_arguments.specs.Layouts.{layout_of, is_live_at, IsLayout};

/// A byte is live by the layout of a memory exactly where it is live in the memory. The parts of the layout stand in order where the
/// heap doesn't reach into the stack, and so where the memory is laid out and its stack is within its limit.
pub fn layouts_are_of_memories()
    ensures bytes { (m : Memory) (address : ℕ) → is_live_at (layout_of m) address ≡ is_live_byte m address }
    ensures windows { (m : Memory) (w : Window) → all_of_window (is_live_at (layout_of m)) w ≡ all_of_window (is_live_byte m) w }
    ensures order { (m : Memory) → heap_top m ≤ stack_place m → IsLayout (layout_of m) }
    ensures laid_out { (size : ℕ) (m : Memory) → IsLaidOut size m → length m.stack ≤ m.limit.bytes → IsLayout (layout_of m) }
{}
