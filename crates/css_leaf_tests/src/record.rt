//! Tests of windows.

use crate::checks::check;
use css_record::Window;

// A plain window is one row, also at the most bytes that one may have.
#[test]
fn plain_windows(rt: HostRuntime) {
    let window = Window::plain(8_192, 16);
    let row = Window {
        base: 8_192,
        rows: 1,
        width: 16,
        stride: 16,
    };
    check(&rt, "plain", window == row);
    check(&rt, "short", window.length() == 16);
    let longest = Window::plain(4_096, 1_073_741_824);
    check(&rt, "long", longest.length() == 1_073_741_824);
}
