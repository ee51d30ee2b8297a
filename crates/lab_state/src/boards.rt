//! The boards of a laboratory.
ghost use Rattle.std.specs.Prelude.{◌≡◌, ◌<◌, ◌↔◌, ◌++◌, ◌∷◌, [], length, false, Some, None, slice_get, position};
ghost use Rattle.std.specs.Prelude.{is_some, IsSome, IsTrue, IfOk, OnOk, OnErr, All};
ghost use Rattle.std.specs.Option.{option_map, ForSome};
ghost use Rattle.std.specs.Str.{bytes_eq};
ghost use Rattle.lab_num.specs.Name as name_spec;
ghost use Rattle.board.specs.Valid.{IsBoard};
ghost use Rattle.board.specs.View.{quiet};
ghost use Rattle.lab_state.specs.Inner.Standing.{HasDevices};
ghost use Rattle.lab_state.specs.Names as names_spec;
ghost use Rattle.lab_state.specs.One.{view_of, kind_at, first_without};

use crate::faults::AddFault;
use crate::lab::Lab;
use crate::named_board::{LEAST_SPEED, NamedBoard};
use board::Board;
use dev_core::{Device, Kind};
use lab_num::{BoardNo, MOST_BOARDS, Member, NoMemory, Text};

/// The number of the first board of this name.
fn number_of<D: Device>(boards: &[NamedBoard<D>], name: &str) -> Option<usize>
    ensures { result ≡ position (λ board. bytes_eq board.name name.now) boards.now }
{
    boards
        .iter()
        .position(|board| board.name().as_str() == name)
}

/// The number of the first board without a plan.
fn first_bare<D: Device>(boards: &[NamedBoard<D>]) -> Option<usize>
    ensures { result ≡ first_without boards.now }
{
    boards.iter().position(|board| board.is_bare())
}

/// Each board is one that there can be. Nothing is changed and told when this runs.
pub fn validity_laws<D: Device>(boards: &[NamedBoard<D>])
    ensures { All (λ board. ForSome board.view IsBoard) boards.now }
{
    for board in boards {
        board.validity_law();
    }
}

/// Each board has the devices of its plan. Nothing is changed and told when this runs.
pub fn devices_laws<D: Device>(boards: &[NamedBoard<D>])
    ensures { All (λ board. ForSome board.view HasDevices) boards.now }
{
    for board in boards {
        board.devices_law();
    }
}

fn push<D: Device>(boards: &mut Vec<NamedBoard<D>>, board: NamedBoard<D>) -> Result<(), NoMemory>
    ensures ok { OnOk result (boards.new.items ≡ boards.old.items ++ board ∷ []) }
    ensures err { OnErr result (boards.new.items ≡ boards.old.items) }
{
    boards.push(board)?;
    Ok(())
}

impl<D: Device> Lab<D> {
    /// Whether a board or a hub has the name.
    pub(crate) fn is_taken(&self, name: &str) -> bool
        ensures { result ≡ names_spec.is_taken self.now.lab name.now }
    {
        number_of(&self.boards, name).is_some() || self.hubs.find(name).is_some()
    }

    /// Adds a board without a plan.
    pub fn add_board(&mut self, name: &str) -> Result<BoardNo, AddFault>
        requires unspent { self.old.spent ≡ false }
        requires is_name { IsTrue (name_spec.is_name name.now) }
        ensures number { IfOk result (λ board. board.0 ≡ length self.old.lab.boards) }
        ensures ok { OnOk result (self.new ≡ record self.old {
          lab = record self.old.lab {
            boards = self.old.lab.boards ++ record {
              name = name.now;
              view = None;
            } ∷ [];
          };
        }) }

        // A name that is taken is reported as such, even where there are 16 boards.
        ensures taken { (result ≡ Err AddFault.Taken)
            ↔ IsTrue (names_spec.is_taken self.old.lab name.now) }
        ensures boards { (result ≡ Err AddFault.Boards)
            ↔ ((names_spec.is_taken self.old.lab name.now ≡ false)
            × (length self.old.lab.boards ≡ 16)) }
        ensures err { OnErr result (self.new ≡ self.old) }
    {
        if self.is_taken(name) {
            return Err(AddFault::Taken);
        }
        if self.boards.len() >= usize::from(MOST_BOARDS) {
            return Err(AddFault::Boards);
        }
        let number = BoardNo(self.boards.len() as u8);
        let text = Text::of(self.alloc, name)?;
        push(&mut self.boards, NamedBoard::new(text))?;
        let _member = self.source.add(LEAST_SPEED);
        Ok(number)
    }

    /// How many boards there are, at most 16.
    pub fn boards(&self) -> u8
        requires { self.now.spent ≡ false }
        ensures { result ≡ length self.now.lab.boards }
    {
        self.boards.len() as u8
    }

    /// The board that has a name.
    pub fn find_board(&self, name: &str) -> Option<BoardNo>
        requires { self.now.spent ≡ false }
        ensures { option_map (λ board. board.0) result
            ≡ names_spec.board_named self.now.lab name.now }
    {
        match number_of(&self.boards, name) {
            Some(b) => Some(BoardNo(b as u8)),
            None => None,
        }
    }

    /// The name of a board, which no other board and no hub has.
    pub fn board_name(&self, b: BoardNo) -> &Text
        requires unspent { self.now.spent ≡ false }
        requires exists { b.0 < length self.now.lab.boards }
        ensures value { Some result.now
            ≡ option_map (λ board. board.name) (slice_get self.now.lab.boards b.0) }
        ensures found { names_spec.board_named self.now.lab result.now ≡ Some b.0 }
        ensures no_hub { names_spec.hub_named self.now.lab result.now ≡ None }
    {
        self.boards[b.0 as usize].name()
    }

    /// Whether a board has a plan.
    pub fn has_plan(&self, b: BoardNo) -> bool
        requires unspent { self.now.spent ≡ false }
        requires exists { b.0 < length self.now.lab.boards }
        ensures { result ≡ is_some (view_of self.now.lab b.0) }
    {
        self.boards[b.0 as usize].board().is_some()
    }

    /// The first board that has no plan.
    pub fn first_without_plan(&self) -> Option<BoardNo>
        requires { self.now.spent ≡ false }
        ensures { option_map (λ b. b.0) result ≡ first_without self.now.lab.boards }
    {
        match first_bare(&self.boards) {
            Some(b) => Some(BoardNo(b as u8)),
            None => None,
        }
    }

    /// A board. Nobody is yet to take a post or an entry of it.
    pub fn board(&self, b: BoardNo) -> &Board<D>
        requires unspent { self.now.spent ≡ false }
        requires has_plan { IsSome (view_of self.now.lab b.0) }
        ensures view { Some result.now.view ≡ view_of self.now.lab b.0 }
        ensures quiet { result.now ≡ quiet result.now.view }
    {
        self.boards[b.0 as usize].board().unwrap()
    }

    /// The kind of a device. None exactly where its board has no plan or the plan has no such
    /// device.
    pub fn device_kind(&self, member: Member) -> Option<Kind>
        requires { self.now.spent ≡ false }
        ensures { result ≡ kind_at self.now.lab.boards member }
    {
        let board = self.boards.get(member.board.0 as usize)?;
        board.device_kind(member.dev)
    }

    /// The kind of a device that a board has.
    pub(crate) fn kind_of(&self, member: Member) -> Kind
        requires unspent { self.now.spent ≡ false }
        requires device { IsSome (kind_at self.now.lab.boards member) }
        ensures { Some result ≡ kind_at self.now.lab.boards member }
    {
        self.device_kind(member).unwrap()
    }
}
