//! Laws of the definitions: what the table says of the pending objects. Each is what the contract of an empty function says.
ghost use Rattle.std.specs.Prelude.{◌≡◌, ◌≤◌, ◌+◌, ℕ, ℤ, true, false, List, [], ◌∷◌, length, map, Option, None, is_none, IsPermutation};
ghost use Rattle.std.specs.List.{list_any};
ghost use Rattle.css_base.specs.declared.limits.Limits.{Limits};
ghost use Rattle.css_semantics.specs.Dialogue.{Action, Item, Tape, Call, Calls, DimFault, Store, Wait, Barrier, Finish, End};
ghost use Rattle.css_semantics.specs.Memory.{Memory, memory_after};
ghost use Rattle.css_semantics.specs.Tasks.{body, called, window_length};
ghost use Rattle.css_record.specs.Windows.{window};
ghost use Rattle.css_semantics.specs.Pending.{pending};
ghost use Rattle.css_semantics.specs.Rules.{checks_of_main, first_broken, hit, is_unsynchronised};
ghost use Rattle.css_record.specs.declared.layout.Layout.{Layout};
ghost use Rattle.css_record.specs.declared.window.Window.{Window};
ghost use Rattle.css_arguments.specs.declared.argument.Argument.{Argument};
ghost use Rattle.css_arguments.specs.Arguments.{given, is_stopped, AreWindows};
ghost use Rattle.css_objects.specs.Table.{Entry, Table, no_objects, all_entries, objects, object, windows as windows_of, without};
ghost use Rattle.css_objects.specs.Stored.{without_read, IsTaken};
ghost use Rattle.css_objects.specs.Versions.{versions, made_in, kept_in};
ghost use Rattle.css_objects.specs.Naming.{Given, version_of, read_by, given_by, with_given};
ghost use Rattle.css_objects.specs.Current.{given_in, current, is_change, AreSnapshots, Kept, entries_at, StandsFor, value_of, kept_to};
ghost use Rattle.css_arguments.specs.Layouts.{layout_of};
ghost use Rattle.css_objects.specs.Judged.{broken_by};
ghost use Rattle.css_objects.specs.declared.pending.Pending.{Pending};
ghost use Rattle.css_objects.specs.declared.pending.Probe.{Probe};
ghost use Rattle.css_objects.specs.declared.pending.Probe.TheVariants as probes;
ghost use Rattle.css_objects.specs.Found.{TakesAtMost};
ghost use Rattle.css_objects.specs.Seen.{IsProbe, IsShown};
ghost use Rattle.css_objects.specs.Lengths.{AreLong, AreCopiesLong, AreKeptLong, AreValuesLong, IsLentOfLength};
ghost use Rattle.css_objects.specs.Spaced.{one_row, IsThousand, is_same};

/// What a call breaks by a table that has the pending objects, in its own order, and by the layout of main's memory is what main
/// breaks there: by main's checks of the call, of which it can break no others; at the call; and, where a dimension was stopped, at
/// the fault in a dimension.
pub fn calls_are_judged_by_tables()
    ensures checks { (m : Memory) (limits : Limits) (tape : Tape) (t : Table) (arguments : List Argument) (call : Call) → IsPermutation (objects t) (pending tape) → call.arguments ≡ map given arguments → list_any (λ a. is_stopped a.dims) arguments ≡ false → first_broken (checks_of_main m limits tape (Calls call)) ≡ broken_by (layout_of m) limits.local_store t arguments }
    ensures calls { (start : Memory) (limits : Limits) (tape : Tape) (call : Call) (t : Table) (arguments : List Argument) → body tape ≡ None → IsPermutation (objects t) (pending tape) → call.arguments ≡ map given arguments → list_any (λ a. is_stopped a.dims) arguments ≡ false → hit start limits tape (Calls call) ≡ broken_by (layout_of (memory_after start tape)) limits.local_store t arguments }
    ensures stopped { (start : Memory) (limits : Limits) (tape : Tape) (l : Layout) (local_store : ℕ) (t : Table) (arguments : List Argument) → body tape ≡ None → list_any (λ a. is_stopped a.dims) arguments ≡ true → hit start limits tape DimFault ≡ broken_by l local_store t arguments }
{}

/// An access of main is unsynchronised by a table that has the pending objects, in its own order, exactly where it is by those.
pub fn accesses_are_judged_by_tables()
    ensures { (t : Table) (tape : Tape) → IsPermutation (objects t) (pending tape) → (action : Action) → is_unsynchronised (objects t) action ≡ is_unsynchronised (pending tape) action }
{}

/// The pending objects at a tape with their versions are those of the tape, and a table that stands for them has just these, in its own
/// order. So what a call reads by the table is what it reads by the tape.
pub fn tables_have_the_pending_objects()
    ensures current { (start : Memory) (tape : Tape) → map object (current start tape) ≡ pending tape }
    ensures table { (k : Kept) (start : Memory) (tape : Tape) (t : Table) → StandsFor k start tape t → IsPermutation (objects t) (pending tape) }
    ensures versions { (k : Kept) (start : Memory) (tape : Tape) (t : Table) → StandsFor k start tape t → (w : Window) → version_of (all_entries t) w ≡ version_of (entries_at k start tape) w }
    ensures reads { (k : Kept) (start : Memory) (tape : Tape) (t : Table) → StandsFor k start tape t → (call : Call) (arguments : List Argument) (windows : List Window) (snapshots : List (Option (List ℕ))) → call.arguments ≡ map given arguments → AreWindows arguments windows → length snapshots ≡ length arguments → AreSnapshots (memory_after start tape) (objects t) (given_by windows arguments snapshots) → read_by (all_entries t) (given_by windows arguments snapshots) ≡ read_by (entries_at k start tape) (map (given_in (memory_after start tape)) call.arguments) }
{}

/// A table that stands for the pending objects of a tape stands for them after one more item of it, if it is changed as that item says.
/// At a call of main it is changed as `name_args` does, with copies of main's bytes of what is read and isn't pending. Where main stores,
/// objects are taken away as long as one is (`stored`); where it waits for something, as `waited` does; at a barrier, at a finish and at
/// the end, as `settled` does; and at all else not at all. It begins without any. Where a generation ends at a tape, `regenerated` may put
/// the values of all versions that tasks make in their places.
pub fn tables_follow_tapes()
    ensures begins { (k : Kept) (start : Memory) → StandsFor k start [] no_objects }
    ensures calls { (k : Kept) (start : Memory) (tape : Tape) (old : Table) → StandsFor k start tape old → (call : Call) (arguments : List Argument) (windows : List Window) (snapshots : List (Option (List ℕ))) → call.arguments ≡ map given arguments → AreWindows arguments windows → length snapshots ≡ length arguments → AreSnapshots (memory_after start tape) (objects old) (given_by windows arguments snapshots) → (i : Item) (new : Table) → is_none (body tape) ≡ true → i.action ≡ Calls call → k.first ≤ called tape → IsPermutation (all_entries new) (with_given (called tape) 0 (all_entries old) (given_by windows arguments snapshots)) → StandsFor k start (i ∷ tape) new }
    ensures stores { (k : Kept) (start : Memory) (tape : Tape) (i : Item) (old new : Table) (address : ℕ) (bytes : List ℕ) → StandsFor k start tape old → is_none (body tape) ≡ true → i.action ≡ Store address bytes → all_entries new ≡ without_read (all_entries old) address (length bytes) → StandsFor k start (i ∷ tape) new }
    ensures waits { (k : Kept) (start : Memory) (tape : Tape) (i : Item) (old new : Table) (address : ℕ) → StandsFor k start tape old → i.action ≡ Wait address → new.rows ≡ without address old.rows → new.blocks ≡ without address old.blocks → StandsFor k start (i ∷ tape) new }
    ensures barriers { (k : Kept) (start : Memory) (tape : Tape) (i : Item) → i.action ≡ Barrier → StandsFor k start (i ∷ tape) no_objects }
    ensures finishes { (k : Kept) (start : Memory) (tape : Tape) (i : Item) → i.action ≡ Finish → StandsFor k start (i ∷ tape) no_objects }
    ensures ends { (k : Kept) (start : Memory) (tape : Tape) (i : Item) (result : ℤ) → i.action ≡ End result → StandsFor k start (i ∷ tape) no_objects }
    ensures others { (k : Kept) (start : Memory) (tape : Tape) (i : Item) (t : Table) → StandsFor k start tape t → is_change (is_none (body tape)) i.action ≡ false → StandsFor k start (i ∷ tape) t }
    ensures generations { (k : Kept) (start : Memory) (tape : Tape) (old new : Table) → StandsFor k start tape old → windows_of new.rows ≡ windows_of old.rows → windows_of new.blocks ≡ windows_of old.blocks → versions (all_entries new) ≡ kept_in (versions (all_entries old)) (map (value_of k) (made_in (versions (all_entries old)))) → StandsFor (kept_to k (called tape)) start tape new }
{}

/// Among a thousand objects of four bytes, eight bytes apart from 4,096 on, a probe of one row reads at most ten. Of 4 bytes at 12,088 it
/// answers Same, of 4 bytes at 12,092 Nothing, and of 8 bytes at 12,084 Crosses with the object at 12,088.
pub fn probes_read_ten_of_a_thousand()
    ensures steps { (t : Table) (old new : ℕ) → IsThousand t → TakesAtMost (length t.rows) (length t.blocks) 1 old new → new ≤ old + 10 }
    ensures same { (t : Table) (p : Probe) → IsThousand t → IsProbe t (one_row 12088 4) p → is_same p ≡ true }
    ensures nothing { (t : Table) (p : Probe) → IsThousand t → IsProbe t (one_row 12092 4) p → p ≡ probes.Nothing }
    ensures crosses { (t : Table) (p : Probe) → IsThousand t → IsProbe t (one_row 12084 8) p → p ≡ probes.Crosses (one_row 12088 4) }
{}

/// Where the bytes of a version are there, they are as many as the window has. It stays so where calls give copies that are as long as
/// their windows (`name_args`), where main stores (`stored`) and waits (`waited`), and where bytes that are as long as the windows come in
/// the places of versions (`regenerated`); then it is so of each object that is lent. In a table that stands for a tape it is so where
/// the values that are kept are as long as their windows.
pub fn versions_are_as_long_as_their_windows()
    ensures calls { (number : ℕ) (old new : List Entry) (gs : List Given) → AreLong old → AreCopiesLong gs → IsPermutation new (with_given number 0 old gs) → AreLong new }
    ensures stores { (old new : Table) (address count : ℕ) (w : Window) → AreLong (all_entries old) → IsTaken old address count new w → AreLong (all_entries new) }
    ensures waits { (old new : Table) (base : ℕ) → AreLong (all_entries old) → new.rows ≡ without base old.rows → new.blocks ≡ without base old.blocks → AreLong (all_entries new) }
    ensures generations { (old new : Table) (kept : List (List ℕ)) → AreLong (all_entries old) → AreKeptLong (all_entries old) kept → windows_of new.rows ≡ windows_of old.rows → windows_of new.blocks ≡ windows_of old.blocks → versions (all_entries new) ≡ kept_in (versions (all_entries old)) kept → AreLong (all_entries new) }
    ensures lent { (t : Table) (p : Pending) → AreLong (all_entries t) → IsShown t p → IsLentOfLength (window_length (window p.window)) p.version }
    ensures tapes { (k : Kept) (start : Memory) (tape : Tape) (t : Table) → StandsFor k start tape t → AreValuesLong k (current start tape) → AreLong (all_entries t) }
{}
