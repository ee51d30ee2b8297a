//! The words and the cells that a bench begins with.
ghost use Rattle.std.specs.Prelude.{◌≡◌, ◌==◌, ◌^◌, ◌<◌, ◌≤◌, ◌∷◌, length, map, All, IfOk, if◌then◌else◌};
ghost use Rattle.floor_run.specs.Turns.{slots_left};

use floor_core::Job;
use lab_num::NoMemory;
use std::alloc::Global;

/// The word of a board that was never reported.
fn first_word<J: Job>(job: &J) -> u64
    ensures word { result ≡ (if slots_left J.meaning job.now == 0 then 3 else 0) }
    ensures fits { slots_left J.meaning job.now < 2 ^ 64 }
{
    if job.left() == 0 { 3 } else { 0 }
}

/// Word 0, which is no board's, and the word of each board.
pub(crate) fn words_of<J: Job>(alloc: Global, jobs: &[J]) -> Result<Vec<u64>, NoMemory>
    requires { length jobs.now ≤ 16 }
    ensures words { IfOk result (λ w. w.items ≡
        0 ∷ map (λ job. if slots_left J.meaning job == 0 then 3 else 0) jobs.now) }
    ensures fit { IfOk result (λ w. All (λ job. slots_left J.meaning job < 2 ^ 64) jobs.now) }
{
    let mut words = Vec::with_capacity(alloc, jobs.len() + 1)?;
    words.push(0)?;
    for job in jobs {
        words.push(first_word(job))?;
    }
    Ok(words)
}

/// A cell for each board, with its job.
pub(crate) fn cells_of<J: Job>(alloc: Global, jobs: Vec<J>) -> Result<Vec<Option<J>>, NoMemory>
    ensures { IfOk result (λ s. s.items ≡ map Some jobs.items) }
{
    let mut cells = Vec::with_capacity(alloc, jobs.len())?;
    for job in jobs {
        cells.push(Some(job))?;
    }
    Ok(cells)
}
