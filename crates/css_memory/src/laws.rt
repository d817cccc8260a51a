//! Laws of main's memory. Each is what the contract of an empty function says.
ghost use Rattle.std.specs.Prelude.{◌≡◌, ℕ, List, map, Bool, true, false, IsTrue};
ghost use Rattle.css_semantics.specs.Dialogue.{Action};
ghost use Rattle.css_semantics.specs.Flat.{FlatState, reply_in, flat_after, input_after};
ghost use Rattle.css_semantics.specs.Pending.{Object};
ghost use Rattle.css_semantics.specs.Rules.{meets};
ghost use Rattle.css_memory.specs.Main.{Main, main_reply, main_after, is_of_memory};
ghost use Rattle.css_memory.specs.Pages.{touches};

/// The flat world has main's memory, with an input beside it: it replies as the memory does to whatever a program asks of a memory, the
/// heap among it; whatever is asked, its memory becomes what main's becomes, and its input what the input becomes by itself.
pub fn flat_world_has_main_memory()
    ensures replies { (s : FlatState) (m : Main) (action : Action) → s.memory ≡ m.memory → is_of_memory action ≡ true → reply_in s action ≡ main_reply m action }
    ensures learns { (s : FlatState) (m : Main) (action : Action) → s.memory ≡ m.memory → flat_after s action ≡ record { memory = (main_after m action).memory; input = input_after s.input action } }
{}

/// Bytes that touch no page of marked windows meet no object that has one of them.
pub fn untouched_bytes_meet_nothing()
    ensures { (which : Object → Bool) (objects : List Object) (address length : ℕ) → touches (map (λ o. o.window) objects) address length ≡ false → meets which objects address length ≡ false }
{}
