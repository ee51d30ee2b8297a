//! The laboratory is made: its hub, and then a board after another.
ghost use Rattle.std.specs.Prelude.{◌≡◌, ◌+◌, ◌<◌, ◌≤◌, ◌∷◌, ◌++◌, [], false, Some, IsSome, IsTrue, IfOk, OnOk};
ghost use Rattle.std.specs.Prelude.{ℕ, codes, length, None};
ghost use Rattle.std.specs.Fmt.{decimal};
ghost use Rattle.std.specs.Option.{ForSome};
ghost use Rattle.dev_core.specs.Stock.{IsFull};
ghost use Rattle.dev_core.specs.declared.kind.Kind.TheVariants.{Uart};
ghost use Rattle.lab_num.specs.Route.{is_connected};
ghost use Rattle.lab_state.specs.Hub.{members_of};
ghost use Rattle.lab_state.specs.Names.{hub_named, is_taken, kind_named};
ghost use Rattle.lab_state.specs.One.{view_of, kind_at, changed, connected, fitted};
ghost use Rattle.board.specs.Changes.{with_pc, with_bytes, holds_each};
ghost use Rattle.board.specs.New.{new_board};
ghost use Rattle.lab_gen.specs.Generated.{board, IsGenerated, uart_of};
ghost use Rattle.lab_gen.specs.Plan as plan_spec;
ghost use Rattle.lab_gen.specs.Inner.Steps.{bare, empty, IsWith};

use crate::firmware::program;
use crate::plan::plan;
use dev_core::{Device, Stock};
use lab_num::{BoardNo, Member, NoMemory};
use lab_state::{AddFault, ConnectFault, FitFault, HubNameFault, Lab};
use std::alloc::Global;

/// Where the memory of a board begins, and its program.
const START: u32 = 0x8000_0000;

/// The name of the hub that connects all boards.
const HUB: &str = "hub";

/// Adds a board without a plan, under the name of its number.
#[tactic(auto, using(crate::proofs::MoreBoards::board_name))]
fn add_bare<D: Device>(alloc: Global, lab: &mut Lab<D>, number: u8) -> Result<BoardNo, NoMemory>
    requires unspent { lab.old.spent ≡ false }
    requires count { length lab.old.lab.boards ≡ number }
    requires few { number < 16 }
    requires free { is_taken lab.old.lab (codes "m" ++ decimal number) ≡ false }
    ensures number { IfOk result (λ board. board.0 ≡ number) }
    ensures ok { OnOk result (lab.new ≡ record lab.old {
      lab = record lab.old.lab { boards = lab.old.lab.boards ++ bare number ∷ [] };
    }) }
{
    let name = format!(in alloc; "m{number}")?;
    match lab.add_board(name.as_str()) {
        Ok(board) => Ok(board),
        Err(AddFault::Memory) => Err(NoMemory),
        Err(AddFault::Taken | AddFault::Boards) => unreachable!(),
    }
}

/// Makes a board by the plan of all boards.
fn fit_plan<D: Device>(alloc: Global, lab: &mut Lab<D>, b: BoardNo) -> Result<(), NoMemory>
    requires unspent { lab.old.spent ≡ false }
    requires exists { b.0 < length lab.old.lab.boards }
    requires bare { view_of lab.old.lab b.0 ≡ None }
    ensures { OnOk result (lab.new ≡ record lab.old {
      lab = fitted lab.old.lab b.0 (new_board b.0 plan_spec.plan);
    }) }
{
    let made = plan(alloc)?;
    match lab.fit(b, made) {
        Ok(()) => Ok(()),
        Err(FitFault::Memory) => Err(NoMemory),
        Err(FitFault::Has) => unreachable!(),
    }
}

/// Puts a program at the start of a board's memory, whose first processor is to begin with it.
fn load<D: Device>(lab: &mut Lab<D>, b: BoardNo, program: &[u8]) -> Result<(), NoMemory>
    requires unspent { lab.old.spent ≡ false }
    requires has_plan { IsSome (view_of lab.old.lab b.0) }
    requires has_processor { ForSome (view_of lab.old.lab b.0) (λ v. 0 < length v.cores) }
    requires holds { ForSome (view_of lab.old.lab b.0) (λ v.
        IsTrue (holds_each v.space 0x80000000 (length program.now))) }
    ensures { OnOk result (lab.new ≡ record lab.old {
      lab = changed
          (changed lab.old.lab b.0 (λ v. with_bytes v 0x80000000 program.now))
          b.0 (λ v. with_pc v 0 0x80000000);
    }) }
{
    lab.copy_in(b, START, program)?;
    lab.set_pc(b, 0, START);
    Ok(())
}

/// Puts the UART of a board at the end of the hub, which is the first.
fn join<D: Device>(lab: &mut Lab<D>, board: BoardNo) -> Result<(), NoMemory>
    requires unspent { lab.old.spent ≡ false }
    requires hub { hub_named lab.old.lab (codes "hub") ≡ Some 0 }
    requires device { kind_at lab.old.lab.boards (uart_of board.0) ≡ Some Uart }
    requires uarts { kind_named lab.old.lab (codes "hub") ≡ Some Uart }
    requires free { is_connected (members_of lab.old.lab.hubs) (uart_of board.0) ≡ false }
    ensures { OnOk result (lab.new ≡ record lab.old {
      lab = connected lab.old.lab 0 (uart_of board.0);
    }) }
{
    match lab.connect(Member { board, dev: 0 }, HUB) {
        Ok(()) => Ok(()),
        Err(ConnectFault::Memory) => Err(NoMemory),
        Err(ConnectFault::Name | ConnectFault::Kind | ConnectFault::Already) => unreachable!(),
    }
}

/// Gives the last board, of this number, its plan and its program.
fn equip<D: Device>(alloc: Global, lab: &mut Lab<D>, seed: u64, b: BoardNo) -> Result<(), NoMemory>
    requires { IsWith seed b.0 (bare b.0) lab.old }
    ensures { OnOk result (IsWith seed b.0 (board seed b.0) lab.new) }
{
    let bytes = program(alloc, seed, b.0)?;
    fit_plan(alloc, lab, b)?;
    load(lab, b, &bytes)?;
    Ok(())
}

/// Creates the hub, in a laboratory that has nothing yet.
fn create_hub<D: Device>(lab: &mut Lab<D>) -> Result<(), NoMemory>
    requires { lab.old ≡ record { lab = empty; spent = false } }
    ensures { OnOk result ((seed : ℕ) → IsGenerated seed 0 lab.new) }
{
    match lab.create_uart_hub(HUB, 0) {
        Ok(()) => Ok(()),
        Err(HubNameFault::Memory) => Err(NoMemory),
        Err(HubNameFault::Taken) => unreachable!(),
    }
}

/// Adds the board of this number, which is that of the boards so far, and puts it at the end of the
/// hub.
fn add_board<D: Device>(
    alloc: Global,
    lab: &mut Lab<D>,
    seed: u64,
    number: u8,
) -> Result<(), NoMemory>
    requires few { number < 16 }
    requires before { IsGenerated seed number lab.old }
    ensures { OnOk result (IsGenerated seed (number + 1) lab.new) }
{
    let b = add_bare(alloc, lab, number)?;
    equip(alloc, lab, seed, b)?;
    join(lab, b)?;
    Ok(())
}

/// The laboratory of this seed with so many boards, at time 0.
pub(crate) fn laboratory<D: Device>(
    alloc: Global,
    seed: u64,
    boards: u8,
    stock: Stock<D>,
) -> Result<Lab<D>, NoMemory>
    requires few { boards ≤ 16 }
    requires full { IsFull D.meaning stock }
    ensures { IfOk result (λ lab. IsGenerated seed boards lab) }
{
    let mut lab = Lab::new(alloc, stock)?;
    create_hub(&mut lab)?;
    for number in 0..boards {
        add_board(alloc, &mut lab, seed, number)?;
    }
    Ok(lab)
}
