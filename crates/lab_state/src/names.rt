//! The names that the log prints.
ghost use Rattle.std.specs.Prelude.{◌≡◌, map, find, false, IfOk};
ghost use Rattle.std.specs.Option.{option_map};
ghost use Rattle.lab_state.specs.Names as names_spec;

use crate::lab::Lab;
use crate::named_board::NamedBoard;
use dev_core::Device;
use lab_num::{NoMemory, Rows, Text};
use log_merge::{BoardNames, Names};
use std::alloc::Global;
use sys_bus::{BoardPlan, Named, NamedWhat, RegionKind};

/// Whether a name of a plan is that of the device of this number.
fn is_device(dev: usize, what: NamedWhat) -> bool
    ensures { result ≡ names_spec.is_device dev what }
{
    match what {
        NamedWhat::Part(RegionKind::Dev(other)) => usize::from(other) == dev,
        _ => false,
    }
}

/// The first entry of a plan's names that is that of a device.
fn find_device(plan: &BoardPlan, dev: usize) -> Option<&Named>
    ensures { option_map (λ named. named.now) result
        ≡ find (λ named. names_spec.is_device dev named.what) plan.now.names }
{
    plan.names
        .items()
        .iter()
        .find(|named| is_device(dev, named.what))
}

/// The name of a device in a plan.
fn device_name(plan: &BoardPlan, dev: usize) -> &str
    ensures { result.now ≡ names_spec.device_name plan.now dev }
{
    match find_device(plan, dev) {
        Some(named) => named.name.as_str(),
        None => "",
    }
}

/// The names of the devices of a plan, in order of their numbers.
fn device_names(alloc: Global, plan: &BoardPlan) -> Result<Rows<Text>, NoMemory>
    ensures { IfOk result (λ names. names ≡ names_spec.device_names plan.now) }
{
    let mut names = Vec::new(alloc);
    for dev in 0..plan.kinds.items().len() {
        names.push(Text::of(alloc, device_name(plan, dev))?)?;
    }
    Ok(Rows::of(names))
}

/// The names of a board and of its devices.
fn board_names<D: Device>(alloc: Global, board: &NamedBoard<D>) -> Result<BoardNames, NoMemory>
    ensures { IfOk result (λ names. names ≡ names_spec.board_names board.now) }
{
    let devices = match board.board() {
        Some(board) => device_names(alloc, board.plan())?,
        None => Rows::of(Vec::new(alloc)),
    };
    let name = Text::of(alloc, board.name().as_str())?;
    Ok(BoardNames { name, devices })
}

/// The names of boards and of their devices.
fn all_names<D: Device>(
    alloc: Global,
    boards: &[NamedBoard<D>],
) -> Result<Vec<BoardNames>, NoMemory>
    ensures { IfOk result (λ names. names.items ≡ map names_spec.board_names boards.now) }
{
    let mut names = Vec::new(alloc);
    for board in boards {
        names.push(board_names(alloc, board)?)?;
    }
    Ok(names)
}

impl<D: Device> Lab<D> {
    /// The names of all boards and of their devices. A board without a plan has none of these.
    pub fn names(&self) -> Result<Names, NoMemory>
        requires { self.now.spent ≡ false }
        ensures { IfOk result (λ names. names ≡ names_spec.names self.now.lab) }
    {
        let boards = all_names(self.alloc, &self.boards)?;
        Ok(Names {
            boards: Rows::of(boards),
        })
    }
}
