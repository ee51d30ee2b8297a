//! The summary of a laboratory.
ghost use Rattle.std.specs.Prelude.{◌≡◌, ◌<◌, ◌++◌, false, length, IfOk, OnOk, slice_index_or, string_bytes};
ghost use Rattle.lab_gen.specs.Summary as summary_spec;

use board::Board;
use dev_core::Device;
use lab_num::{BoardNo, NoMemory};
use lab_state::Lab;
use log_text::Word;
use std::alloc::Global;

/// The register of a board in which it sums the bytes that it takes.
const SUM: u8 = 18;

/// Writes the line of a board of this name that has a plan, and answers how many posts it has made.
fn print_line<D: Device>(text: &mut String, name: &str, board: &Board<D>) -> Result<u64, NoMemory>
    ensures posts { IfOk result (λ posts. posts ≡ board.now.view.numbers.posted) }
    ensures text { OnOk result (string_bytes text.new ≡ string_bytes text.old
        ++ summary_spec.line_by name.now board.now.view) }
{
    prove!(!board.plan().cpus.items().is_empty());
    let posts = board.posted();
    let retired = board.retired(0);
    let sum = Word(board.register(0, SUM));
    writeln!(text, "{name} posts {posts} retired {retired} sum {sum}")?;
    Ok(posts)
}

/// Writes the line of a board, and answers how many posts it has made. A board without a plan has no
/// line and has made none.
#[tactic(auto, using(crate::proofs::Told::told_of_board))]
fn print_board<D: Device>(lab: &Lab<D>, b: BoardNo, text: &mut String) -> Result<u64, NoMemory>
    requires unspent { lab.now.spent ≡ false }
    requires exists { b.0 < length lab.now.lab.boards }
    ensures posts { IfOk result (λ posts. posts
        ≡ summary_spec.posts_of (slice_index_or lab.now.lab.boards b.0 summary_spec.no_board)) }
    ensures text { OnOk result (string_bytes text.new ≡ string_bytes text.old
        ++ summary_spec.line_of (slice_index_or lab.now.lab.boards b.0 summary_spec.no_board)) }
{
    if !lab.has_plan(b) {
        return Ok(0);
    }
    print_line(text, lab.board_name(b).as_str(), lab.board(b))
}

/// The summary of a laboratory: a line for each board, and one for all.
#[tactic(auto, using(crate::proofs::Told::lines_more, crate::proofs::Told::posts_more))]
pub(crate) fn summary<D: Device>(alloc: Global, lab: &Lab<D>) -> Result<Vec<u8>, NoMemory>
    requires { lab.now.spent ≡ false }
    ensures { IfOk result (λ bytes. bytes.items ≡ summary_spec.summary lab.now.lab) }
{
    let mut text = String::new(alloc);
    let mut total: u128 = 0;
    for b in 0..lab.boards() {
        total += u128::from(print_board(lab, BoardNo(b), &mut text)?);
    }
    writeln!(text, "total {total}")?;
    Ok(text.into_bytes())
}
