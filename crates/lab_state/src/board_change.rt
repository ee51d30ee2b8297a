//! Changes of a board from outside.
ghost use Rattle.std.specs.Prelude.{◌≡◌};
ghost use Rattle.lab_state.specs.Inner.BoardChange.{changed_by, MayChange};

use board::Board;
use dev_core::Device;

/// What may be changed of a board that has a plan and cannot fail. Its name, its plan and its numbers
/// stay.
#[derive(Drop)]
pub enum BoardChange {
    /// The address of a processor's next instruction.
    Pc { hart: u8, pc: u32 },
    /// Whether a processor is halted.
    Halted { hart: u8, on: bool },
    /// A device is shown.
    Shown(u8),
    /// Bytes of the memories become 0.
    Zero { at: u32, count: u32 },
    Reset,
}

impl BoardChange {
    /// Makes the change.
    pub fn make<D: Device>(self, board: &mut Board<D>)
        requires { MayChange self board.old.view }
        ensures { board.new ≡ record board.old { view = changed_by self board.old.view } }
    {
        match self {
            BoardChange::Pc { hart, pc } => board.set_pc(hart, pc),
            BoardChange::Halted { hart, on } => board.set_halted(hart, on),
            BoardChange::Shown(dev) => board.show(dev),
            BoardChange::Zero { at, count } => board.zero(at, count),
            BoardChange::Reset => board.reset(),
        }
    }
}
