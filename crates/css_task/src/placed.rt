//! Windows of a task, and where their bytes are kept.
use css_base::Direction;
use css_record::Window;

/// A window, what its task does with it, and the offset of its first byte among the bytes of all windows.
#[derive(Clone, Copy)]
pub(crate) struct Placed {
    pub(crate) window: Window,
    pub(crate) direction: Direction,
    pub(crate) first: usize,
}

impl Placed {
    ghost use Rattle.std.specs.Prelude.{◌≡◌, ◌≤◌, is_some, IfSome};
    ghost use Rattle.css_semantics.specs.Tasks.{writes};
    ghost use Rattle.css_semantics.specs.Rules.{is_in_window};
    ghost use Rattle.css_record.specs.Windows.{window, IsWindow};
    ghost use Rattle.css_task.specs.Placing.{IsAt};

    /// The offset in the window, row by row, of the first of so many bytes from an address, if they are wholly in one row.
    pub(crate) fn offset(&self, address: u32, count: usize) -> Option<usize>
        requires window { IsWindow (window self.now.window) }
        requires some { 1 ≤ count }
        requires few { count ≤ 8 }
        ensures has { is_in_window (window self.now.window) address count ≡ is_some result }
        ensures is { IfSome result (λ offset. IsAt (window self.now.window) address count offset) }
    {
        let window = &self.window;
        if address < window.base {
            return None;
        }
        let distance = address - window.base;
        let row = distance / window.stride;
        let column = distance % window.stride;
        if row < window.rows && column as usize + count <= window.width as usize {
            Some(row as usize * window.width as usize + column as usize)
        } else {
            None
        }
    }

    /// Whether the task may write there.
    pub(crate) fn is_writable(&self) -> bool
        ensures { result ≡ writes self.now.direction }
    {
        match self.direction {
            Direction::In => false,
            Direction::Out => true,
            Direction::InOut => true,
        }
    }
}
