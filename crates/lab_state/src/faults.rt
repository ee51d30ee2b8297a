//! Why a call on a laboratory is refused.
use lab_num::{BoardNo, NoMemory};
use uart_hub::HubFault;

/// Why a board was not added.
#[derive(Clone, Copy, PartialEq, Eq)]
pub enum AddFault {
    /// A board or a hub has the name.
    Taken,
    /// There are 16 boards.
    Boards,
    /// Memory ran out.
    Memory,
}

/// Why a board was not made by a plan.
#[derive(Clone, Copy)]
pub enum FitFault {
    /// The board has a plan.
    Has,
    /// Memory ran out.
    Memory,
}

/// Why a hub was not created.
#[derive(Clone, Copy)]
pub enum HubNameFault {
    /// A board or a hub has the name.
    Taken,
    /// Memory ran out.
    Memory,
}

/// Why a device was not connected.
#[derive(Clone, Copy)]
pub enum ConnectFault {
    /// No hub has the name.
    Name,
    /// The hub connects devices of another kind.
    Kind,
    /// The device is in some hub.
    Already,
    /// Memory ran out.
    Memory,
}

/// Why a round was not run.
#[derive(Clone, Copy)]
pub enum LabFault {
    /// Memory ran out in this round, or the laboratory was spent before. It is spent.
    Memory,
}

/// Why a run may not be made.
#[derive(Clone, Copy)]
pub enum RunCause {
    /// A board, the first of these, has no plan.
    NoPlan(BoardNo),
    /// It would go past the last microsecond that a laboratory has.
    TooLong,
}

/// Why a run was not made.
#[derive(Clone, Copy)]
pub enum RunFault {
    /// A board, the first of these, has no plan.
    NoPlan(BoardNo),
    /// It would go past the last microsecond that a laboratory has.
    TooLong,
    /// Memory ran out in this run, or the laboratory was spent before. It is spent.
    Memory,
}

impl From<NoMemory> for AddFault {
    ghost use Rattle.std.specs.Prelude.{◌≡◌};
    ghost use Rattle.lab_state.specs.declared.faults.AddFault.TheVariants.{Memory};

    ghost from_gives = { λ _ fault. fault ≡ Memory };

    fn from(_fault: NoMemory) -> AddFault {
        AddFault::Memory
    }
}

impl From<NoMemory> for FitFault {
    ghost use Rattle.std.specs.Prelude.{◌≡◌};
    ghost use Rattle.lab_state.specs.declared.faults.FitFault.TheVariants.{Memory};

    ghost from_gives = { λ _ fault. fault ≡ Memory };

    fn from(_fault: NoMemory) -> FitFault {
        FitFault::Memory
    }
}

impl From<NoMemory> for HubNameFault {
    ghost use Rattle.std.specs.Prelude.{◌≡◌};
    ghost use Rattle.lab_state.specs.declared.faults.HubNameFault.TheVariants.{Memory};

    ghost from_gives = { λ _ fault. fault ≡ Memory };

    fn from(_fault: NoMemory) -> HubNameFault {
        HubNameFault::Memory
    }
}

impl From<LabFault> for RunFault {
    ghost use Rattle.std.specs.Prelude.{◌≡◌};
    ghost use Rattle.lab_state.specs.declared.faults.RunFault.TheVariants.{Memory};

    ghost from_gives = { λ _ fault. fault ≡ Memory };

    fn from(_fault: LabFault) -> RunFault {
        RunFault::Memory
    }
}

impl From<RunCause> for RunFault {
    ghost use Rattle.std.specs.Prelude.{◌≡◌};
    ghost use Rattle.lab_state.specs.Inner.Fault.{run_fault};

    ghost from_gives = { λ cause fault. fault ≡ run_fault cause };

    fn from(cause: RunCause) -> RunFault {
        match cause {
            RunCause::NoPlan(board) => RunFault::NoPlan(board),
            RunCause::TooLong => RunFault::TooLong,
        }
    }
}

impl From<HubFault> for ConnectFault {
    ghost use Rattle.std.specs.Prelude.{◌≡◌};
    ghost use Rattle.lab_state.specs.Inner.Fault.{fault_of};

    ghost from_gives = { λ hub fault. fault ≡ fault_of hub };

    fn from(fault: HubFault) -> ConnectFault {
        match fault {
            HubFault::Already => ConnectFault::Already,
            HubFault::Memory => ConnectFault::Memory,
        }
    }
}
