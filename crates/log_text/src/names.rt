//! The names that the log prints.
ghost use Rattle.std.specs.Prelude.{◌≡◌, [], slice_index_or};
ghost use Rattle.log_text.specs.Names as names_spec;

use lab_num::{BoardNo, Member, Text};
use log_merge::Names;

/// The name of a board, or nothing where it has none.
pub fn board_name(names: &Names, board: BoardNo) -> &str
    ensures { result.now ≡ names_spec.board_name names.now board }
{
    match names.boards.items().get(usize::from(board.0)) {
        Some(board) => board.name.as_str(),
        None => "",
    }
}

/// The name of a device, or nothing where it has none.
pub fn device_name(names: &Names, member: Member) -> &str
    ensures { result.now ≡ names_spec.device_name names.now member }
{
    match names.boards.items().get(usize::from(member.board.0)) {
        Some(board) => name_at(board.devices.items(), usize::from(member.dev)),
        None => "",
    }
}

/// The name at a place, or nothing where there is none.
fn name_at(names: &[Text], place: usize) -> &str
    ensures { result.now ≡ slice_index_or names.now place [] }
{
    match names.get(place) {
        Some(name) => name.as_str(),
        None => "",
    }
}
