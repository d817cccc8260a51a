//! The rules on what a call of a task is given, but for pending objects.
ghost use Rattle.std.specs.Prelude.{◌≡◌, ◌≤◌, ◌<◌, ◌+◌, ◌^◌, ◌||◌, ◌&&◌, not, map, take, drop, length, nat_lt, slice_get, Some};
ghost use Rattle.std.specs.List.{list_any};
ghost use Rattle.css_semantics.specs.Memory.{rounded_up};
ghost use Rattle.css_semantics.specs.Tasks as tasks;
ghost use Rattle.css_semantics.specs.Rules as rules;
ghost use Rattle.css_record.specs.Windows as records;
ghost use Rattle.css_arguments.specs.declared.argument.Argument as code;
ghost use Rattle.css_semantics.specs.WindowRanges.{window_meets};
ghost use Rattle.css_arguments.specs.Arguments.{given, is_unfit, HaveElements, AreFit};
ghost use Rattle.css_arguments.specs.Rooms.{bytes_of};
ghost use Rattle.css_arguments.specs.Layouts.{is_live_at, IsLayout};

use crate::argument::Argument;
use crate::call_windows::window_at;
use crate::window::{meets, overlaps, row_end, same};
use css_base::Direction;
use css_record::{Layout, Window};

// The address of the first global.
const FIRST_GLOBAL: u32 = 4_096;

// The bytes of a local store that no window takes.
const KEPT_BYTES: u64 = 16_384;

/// Whether a dimension of an argument is at fault.
pub fn any_unfit(arguments: &[Argument]) -> bool
    requires { HaveElements arguments.now }
    ensures { result ≡ list_any is_unfit arguments.now }
{
    for argument in arguments {
        if argument.window().is_none() {
            return true;
        }
    }
    false
}

/// The bytes of a local store that the different windows of some arguments take.
pub fn room(arguments: &[Argument]) -> u64
    requires few { length arguments.now ≤ 32 }
    requires fit { AreFit arguments.now }
    ensures { result ≡ rules.room_of (map tasks.window (map given arguments.now)) }
{
    let mut room = KEPT_BYTES;
    for place in 0..arguments.len() {
        room += bytes_at(arguments, place);
    }
    room
}

// The bytes of a local store that the window of the argument at a place takes, if it isn't that of an earlier one.
fn bytes_at(arguments: &[Argument], place: usize) -> u64
    requires place { place < length arguments.now }
    requires fit { AreFit arguments.now }
    ensures value { (a : code.Argument) → slice_get arguments.now place ≡ Some a → result ≡ bytes_of place (map tasks.window (map given arguments.now)) (tasks.window (given a)) }
    ensures small { result ≤ 2 ^ 30 + 128 }
{
    let window = window_at(arguments, place);
    if stands_before(arguments, place, &window) {
        return 0;
    }
    rounded(window.length())
}

// The bytes that a window takes in a local store.
fn rounded(length: u32) -> u64
    ensures value { result ≡ rounded_up 128 length }
    ensures small { result < length + 128 }
{
    (u64::from(length) + 127) / 128 * 128
}

// Whether a window is that of an argument before a place.
fn stands_before(arguments: &[Argument], end: usize, window: &Window) -> bool
    requires end { end ≤ length arguments.now }
    requires fit { AreFit arguments.now }
    ensures { result ≡ list_any (λ w. tasks.is_same_window w (records.window window.now)) (take end (map tasks.window (map given arguments.now))) }
{
    for place in 0..end {
        if same(&window_at(arguments, place), window) {
            return true;
        }
    }
    false
}

/// Whether a byte of an argument's window isn't live.
pub fn any_dead(arguments: &[Argument], layout: &Layout) -> bool
    requires fit { AreFit arguments.now }
    requires layout { IsLayout layout.now }
    ensures { result ≡ list_any (λ a. not (rules.all_of_window (is_live_at layout.now) (tasks.window a))) (map given arguments.now) }
{
    for place in 0..arguments.len() {
        if !is_live(&window_at(arguments, place), layout) {
            return true;
        }
    }
    false
}

// Whether each byte of a window is live.
fn is_live(window: &Window, layout: &Layout) -> bool
    requires is_window { records.IsWindow (records.window window.now) }
    requires layout { IsLayout layout.now }
    ensures { result ≡ rules.all_of_window (is_live_at layout.now) (records.window window.now) }
{
    if window.base < FIRST_GLOBAL {
        return false;
    }
    if u64::from(layout.end) < row_end(window, window.rows - 1) {
        return false;
    }
    if meets_gap(window, layout.globals_end, layout.heap_start) {
        return false;
    }
    !meets_gap(window, layout.heap_top, layout.stack_place)
}

// Whether a window has a byte from one address up to another, where there may be none.
fn meets_gap(window: &Window, from: u32, to: u32) -> bool
    requires { records.IsWindow (records.window window.now) }
    ensures { result ≡ (nat_lt from to && window_meets (records.window window.now) from to) }
{
    from < to && meets(window, u64::from(from), u64::from(to))
}

/// Whether a window shares a byte with one of some arguments', and isn't equal to it.
pub fn overlaps_given(arguments: &[Argument], window: &Window) -> bool
    requires fit { AreFit arguments.now }
    requires is_window { records.IsWindow (records.window window.now) }
    ensures { result ≡ list_any (λ b. rules.overlap (records.window window.now) (tasks.window b)) (map given arguments.now) }
{
    for place in 0..arguments.len() {
        if overlaps(window, &window_at(arguments, place)) {
            return true;
        }
    }
    false
}

/// Whether one window stands twice in some arguments, and is written.
pub fn any_alias(arguments: &[Argument]) -> bool
    requires { AreFit arguments.now }
    ensures { result ≡ rules.has_alias (map given arguments.now) }
{
    for place in 0..arguments.len() {
        let window = window_at(arguments, place);
        let written = is_written(arguments[place].direction);
        if is_aliased(arguments, place + 1, &window, written) {
            return true;
        }
    }
    false
}

// Whether a window is that of an argument from a place on, and it or that one is written.
fn is_aliased(arguments: &[Argument], from: usize, window: &Window, written: bool) -> bool
    requires { AreFit arguments.now }
    ensures { result ≡ list_any (λ b. tasks.is_same_window (records.window window.now) (tasks.window b) && (written || tasks.writes b.direction)) (drop from (map given arguments.now)) }
{
    for place in from..arguments.len() {
        if is_same_written(arguments, place, window, written) {
            return true;
        }
    }
    false
}

// Whether a window is that of the argument at a place, and it or that one is written.
fn is_same_written(arguments: &[Argument], place: usize, window: &Window, written: bool) -> bool
    requires place { place < length arguments.now }
    requires fit { AreFit arguments.now }
    ensures { (a : code.Argument) → slice_get arguments.now place ≡ Some a → result ≡ (tasks.is_same_window (records.window window.now) (tasks.window (given a)) && (written || tasks.writes a.direction)) }
{
    let either = written || is_written(arguments[place].direction);
    let other = window_at(arguments, place);
    either && same(window, &other)
}

/// Whether a task writes what it is given so.
pub fn is_written(direction: Direction) -> bool
    ensures { result ≡ tasks.writes direction }
{
    match direction {
        Direction::In => false,
        Direction::Out | Direction::InOut => true,
    }
}

/// Whether a task reads what it is given so.
pub fn is_read(direction: Direction) -> bool
    ensures { result ≡ tasks.reads direction }
{
    match direction {
        Direction::In | Direction::InOut => true,
        Direction::Out => false,
    }
}
