//! What a board remembers of its interrupt lines.
ghost use Rattle.std.specs.Prelude.{◌≡◌, ◌<◌};
ghost use Rattle.board_space.specs.Inner.Remembers.{still, remembered_lines};

use lab_num::Micros;
use rv_hart::{Lines, MOST_HARTS};

/// What the lines were in a microsecond, after the interrupt controller had sampled its sources.
#[derive(Clone, Copy)]
pub struct Remembered {
    pub at: Micros,
    /// Whether the line of the timer interrupt was up.
    pub timer: bool,
    /// What each processor of the board sees in its `mip`, and 0 for those that it does not have.
    pub mips: [u32; MOST_HARTS],
    pub mtime: u64,
}

impl Remembered {
    /// The lines of a processor.
    #[inline(always)]
    pub fn lines(&self, hart: u8) -> Lines
        requires { hart < 4 }
        ensures { result ≡ remembered_lines self.now hart }
    {
        Lines {
            mip: self.mips[usize::from(hart)],
            mtime: self.mtime,
        }
    }
}

/// Forgets what is remembered, where the line of a device was up or not before something and is not
/// so after it.
pub fn forget_if_changed(remembered: &mut Option<Remembered>, before: bool, after: bool)
    ensures { remembered.new ≡ still remembered.old before after }
{
    if before != after {
        *remembered = None;
    }
}
