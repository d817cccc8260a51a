//! Windows.
ghost use Rattle.std.specs.Prelude.{◌≡◌, ◌≤◌, ◌*◌, ◌^◌};
ghost use Rattle.css_semantics.specs.Tasks as tasks;
ghost use Rattle.css_record.specs.Windows.{window, IsWindow};

/// The bytes of main's memory that a task is given for a pointer: `rows` rows of `width` bytes from `base`, each `stride` bytes
/// behind the one before. Rows that nothing parts are written as one row, whose stride is its width.
#[derive(Clone, Copy, PartialEq, Eq)]
pub struct Window {
    pub base: u32,
    pub rows: u32,
    pub width: u32,
    pub stride: u32,
}

impl Window {
    /// One row of 1 to 2^30 bytes.
    pub fn plain(base: u32, length: u32) -> Window
        requires { (1 ≤ length) × (length ≤ 2 ^ 30) }
        ensures value { window result ≡ tasks.plain base length }
        ensures is_window { IsWindow (window result) }
    {
        Window {
            base,
            rows: 1,
            width: length,
            stride: length,
        }
    }

    /// How many bytes it has.
    pub fn length(&self) -> u32
        requires { IsWindow (window self.now) }
        ensures { result ≡ tasks.window_length (window self.now) }
    {
        self.rows * self.width
    }
}
