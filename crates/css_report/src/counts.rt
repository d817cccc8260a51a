//! What is counted of windows.
ghost use Rattle.std.specs.Prelude.{◌≡◌, ◌+◌, IfOk, map, sum_by};
ghost use Rattle.css_semantics.specs.Tasks.{window_length};
ghost use Rattle.css_record.specs.Windows.{window as window_of};
ghost use Rattle.css_record.specs.Records.{uses_by};
ghost use Rattle.css_report.specs.Stats.{bytes_read, bytes_written, pieces_moved, pieces_of};

use css_base::{Direction, NoMemory};
use css_record::Window;
use css_vm::ArgShape;

/// The most bytes of a row that are moved at once.
const PIECE: u32 = 16_384;

/// What is counted of windows: bytes that are read, bytes that are written, and pieces.
#[derive(Clone, Copy)]
pub(crate) struct Counts {
    pub(crate) reads: u128,
    pub(crate) writes: u128,
    pub(crate) pieces: u128,
}

impl Counts {
    /// Nothing is counted yet.
    pub(crate) const NONE: Counts = Counts {
        reads: 0,
        writes: 0,
        pieces: 0,
    };

    /// With a window that is read.
    fn with_read(self, window: &Window) -> Result<Counts, NoMemory>
        ensures reads { IfOk result (λ c. c.reads ≡ self.reads + window_length (window_of window.now)) }
        ensures writes { IfOk result (λ c. c.writes ≡ self.writes) }
        ensures pieces { IfOk result (λ c. c.pieces ≡ self.pieces + pieces_of (window_of window.now)) }
    {
        let reads = plus(self.reads, length_of(window))?;
        let pieces = plus(self.pieces, pieces_of(window))?;
        Ok(Counts {
            reads,
            writes: self.writes,
            pieces,
        })
    }

    /// With a window that is written.
    fn with_written(self, window: &Window) -> Result<Counts, NoMemory>
        ensures reads { IfOk result (λ c. c.reads ≡ self.reads) }
        ensures writes { IfOk result (λ c. c.writes ≡ self.writes + window_length (window_of window.now)) }
        ensures pieces { IfOk result (λ c. c.pieces ≡ self.pieces + pieces_of (window_of window.now)) }
    {
        let writes = plus(self.writes, length_of(window))?;
        let pieces = plus(self.pieces, pieces_of(window))?;
        Ok(Counts {
            reads: self.reads,
            writes,
            pieces,
        })
    }

    /// With a window that a task uses so.
    fn with_use(self, direction: Direction, window: &Window) -> Result<Counts, NoMemory>
        ensures reads { IfOk result (λ c. c.reads ≡ self.reads + bytes_read (record { window = window_of window.now; direction = direction })) }
        ensures writes { IfOk result (λ c. c.writes ≡ self.writes + bytes_written (record { window = window_of window.now; direction = direction })) }
        ensures pieces { IfOk result (λ c. c.pieces ≡ self.pieces + pieces_moved (record { window = window_of window.now; direction = direction })) }
    {
        match direction {
            Direction::In => self.with_read(window),
            Direction::Out => self.with_written(window),
            Direction::InOut => {
                let read = self.with_read(window)?;
                read.with_written(window)
            }
        }
    }

    /// With the windows of a task that is given these parts.
    pub(crate) fn with_task(
        self,
        parts: &[ArgShape],
        windows: &[Window],
    ) -> Result<Counts, NoMemory>
        ensures reads { IfOk result (λ c. c.reads ≡ self.reads + sum_by bytes_read (uses_by parts.now (map window_of windows.now))) }
        ensures writes { IfOk result (λ c. c.writes ≡ self.writes + sum_by bytes_written (uses_by parts.now (map window_of windows.now))) }
        ensures pieces { IfOk result (λ c. c.pieces ≡ self.pieces + sum_by pieces_moved (uses_by parts.now (map window_of windows.now))) }
    {
        let mut counts = self;
        let mut windows = windows;
        for part in parts {
            match part {
                ArgShape::Scalar => {}
                ArgShape::Window { direction, .. } => {
                    let Some((window, others)) = windows.split_first() else {
                        return Ok(counts);
                    };
                    counts = counts.with_use(*direction, window)?;
                    windows = others;
                }
            }
        }
        Ok(counts)
    }
}

/// A sum. One that passes 128 bits is answered as want of memory: no memory has so many calls.
pub(crate) fn plus(a: u128, b: u128) -> Result<u128, NoMemory>
    ensures { IfOk result (λ sum. sum ≡ a + b) }
{
    a.checked_add(b).ok_or(NoMemory)
}

/// A window's bytes.
fn length_of(window: &Window) -> u128
    ensures { result ≡ window_length (window_of window.now) }
{
    u128::from(window.rows) * u128::from(window.width)
}

/// The pieces in which a window is moved.
fn pieces_of(window: &Window) -> u128
    ensures { result ≡ pieces_of (window_of window.now) }
{
    u128::from(window.rows) * u128::from(window.width.div_ceil(PIECE))
}
