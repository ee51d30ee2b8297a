//! What is taken off a bench when it is closed.
ghost use Rattle.std.specs.Prelude.{◌≡◌, ◌+◌, ◌<◌, ◌≤◌, [], length, vec_capacity};
ghost use Rattle.std.specs.Slots.{slots_items, slots_len, IsFull};
ghost use Rattle.floor_run.specs.Inner.Close.{kept, Takes};

use atomic_table::Closed;
use floor_core::Job;
use std::alloc::Global;

/// What lay in a cell, unless its board is out.
fn keep<J: Job>(word: u64, job: Option<J>) -> Option<J>
    ensures { result ≡ kept word job }
{
    if word % 4 == 1 { None } else { job }
}

/// The job of each board that is not out.
pub(crate) fn jobs_of<J: Job>(
    mut closed: Closed<Option<J>, Global>,
    mut jobs: Vec<Option<J>>,
) -> Vec<Option<J>>
    requires full { IsFull closed.words × IsFull closed.slots }
    requires counts { slots_len closed.words ≡ slots_len closed.slots + 1 }
    requires empty { jobs.items ≡ [] }
    requires room { slots_len closed.slots ≤ vec_capacity jobs }
    ensures len { length result.items ≡ slots_len closed.slots }
    ensures jobs { Takes (slots_items closed.words) (slots_items closed.slots)
        (slots_len closed.slots) result.items }
{
    for i in 0..closed.slot_count() {
        let word = closed.word(i + 1);
        let job = closed.take(i);
        jobs.push_reserved(keep(word, job));
    }
    closed.free();
    jobs
}
