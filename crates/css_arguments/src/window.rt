//! Which bytes windows share.
ghost use Rattle.std.specs.Prelude.{◌≡◌, ◌≢◌, true, false, ◌+◌, ◌*◌, ◌^◌, ◌<◌, ◌≤◌};
ghost use Rattle.css_semantics.specs.Tasks.{is_same_window};
ghost use Rattle.css_semantics.specs.Rules.{share_byte, overlap};
ghost use Rattle.css_record.specs.Windows as windows;
ghost use Rattle.css_semantics.specs.WindowRanges.{window_meets, rows_share};

use css_record::Window;

#[tactic(auto, using(crate::proofs::EnoughRows::row_within))]
/// The address behind the last byte of a window's row.
pub fn row_end(window: &Window, row: u32) -> u64
    requires is_window { windows.IsWindow (windows.window window.now) }
    requires row { row < window.now.rows }
    ensures { result ≡ window.now.base + row * window.now.stride + window.now.width }
{
    row_base(window, row) + u64::from(window.width)
}

#[tactic(auto, using(crate::proofs::EnoughRows::row_within))]
/// The address of the first byte of a window's row.
pub fn row_base(window: &Window, row: u32) -> u64
    requires is_window { windows.IsWindow (windows.window window.now) }
    requires row { row < window.now.rows }
    ensures value { result ≡ window.now.base + row * window.now.stride }
    ensures small { result < 2 ^ 33 }
{
    u64::from(window.base) + u64::from(row) * u64::from(window.stride)
}

/// Whether a window has a byte from one address up to another.
pub fn meets(window: &Window, from: u64, to: u64) -> bool
    requires is_window { windows.IsWindow (windows.window window.now) }
    requires some { from < to }
    ensures { result ≡ window_meets (windows.window window.now) from to }
{
    let base = u64::from(window.base);
    if to <= base {
        return false;
    }
    let behind = (to - 1 - base) / u64::from(window.stride);
    let last = window.rows - 1;
    let row = if behind < u64::from(last) {
        behind as u32
    } else {
        last
    };
    from < row_end(window, row)
}

/// Whether two windows are equal.
pub fn same(a: &Window, b: &Window) -> bool
    ensures test { result ≡ is_same_window (windows.window a.now) (windows.window b.now) }
    ensures equal { result ≡ true → a.now ≡ b.now }
    ensures other { result ≡ false → a.now ≢ b.now }
{
    a.base == b.base && a.rows == b.rows && a.width == b.width && a.stride == b.stride
}

/// Whether two windows share a byte.
pub fn shares(a: &Window, b: &Window) -> bool
    requires first { windows.IsWindow (windows.window a.now) }
    requires second { windows.IsWindow (windows.window b.now) }
    ensures { result ≡ share_byte (windows.window a.now) (windows.window b.now) }
{
    if a.rows <= b.rows {
        rows_share_with(a, b)
    } else {
        rows_share_with(b, a)
    }
}

/// Whether two windows share a byte and aren't equal.
pub fn overlaps(a: &Window, b: &Window) -> bool
    requires first { windows.IsWindow (windows.window a.now) }
    requires second { windows.IsWindow (windows.window b.now) }
    ensures { result ≡ overlap (windows.window a.now) (windows.window b.now) }
{
    shares(a, b) && !same(a, b)
}

// Whether a row of one window has a byte of another one.
fn rows_share_with(a: &Window, b: &Window) -> bool
    requires first { windows.IsWindow (windows.window a.now) }
    requires second { windows.IsWindow (windows.window b.now) }
    ensures { result ≡ rows_share (windows.window b.now) a.now.rows a.now.base a.now.width a.now.stride }
{
    for row in 0..a.rows {
        if meets(b, row_base(a, row), row_end(a, row)) {
            return true;
        }
    }
    false
}
