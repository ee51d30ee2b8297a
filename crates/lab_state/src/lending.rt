//! Boards that go to the workers of a round and come back.
ghost use Rattle.std.specs.Prelude.{◌≡◌, ◌+◌, ◌*◌, ◌≤◌, ◌++◌, [], true, map, length, All, None, IfOk, OnOk};
ghost use Rattle.std.specs.List.{flat_map};
ghost use Rattle.hub_mail.specs.Boss.{sent_by};
ghost use Rattle.hub_mail.specs.Pass.{fresh_passes};
ghost use Rattle.lab_num.specs.Key.{KeysDiffer};
ghost use Rattle.lab_num.specs.Listing.{listing};
ghost use Rattle.dev_core.specs.Post.{post_key};
ghost use Rattle.log_merge.specs.Merge.{all_entries};
ghost use Rattle.lab_state.specs.Inner.Lending.{lent, away, put_back, unused, each_by, its_grant};
ghost use Rattle.lab_state.specs.Inner.End.{in_round};
ghost use Rattle.lab_state.specs.Inner.Time.{numbers_of, AreStanding, part_of, used_up};
ghost use Rattle.lab_state.specs.One.{first_without};
ghost use Rattle.lab_state.specs.Round.{stepped, posts_made, entries_made};

use crate::named_board::{NamedBoard, RoundOutput};
use crate::team::Team;
use board_job::{BoxedBoardJob, run_boards_in_order};
use dev_core::{Device, Entry};
use floor_run::Gate;
use hub_mail::{Boss, Mail, Pass, laws};
use lab_num::{BoardNo, Micros, NoMemory};
use probe_jobs::Watcher;
use std::alloc::Global;
use std::sync::Wait;
use std::thread::Threads;
use time_source::Source;

/// Lends every board for its part of the open grant, in order of board, each with its pass of the
/// boss's mail.
pub(crate) fn lend_all<D: Device>(
    alloc: Global,
    boards: &mut [NamedBoard<D>],
    boss: &Boss,
    passes: Vec<Pass>,
    source: &Source,
    from: Micros,
    q: u64,
) -> Result<Vec<BoxedBoardJob<D>>, NoMemory>
    requires within { from.0 + q ≤ 10000000000 }
    requires standing { AreStanding (1000 * from.0) (numbers_of boards.old) }
    requires few { length boards.old ≤ 16 }
    requires passes { passes.items ≡ fresh_passes boss.now.mail (length boards.old) }
    requires count { length passes.items ≡ length boards.old }
    requires opened { source.now.is_open ≡ true }
    requires parts { source.now.handles ≡ map (part_of from.0 (from.0 + q)) boards.old }
    ensures boards { OnOk result (boards.new ≡ map away boards.old) }
    ensures jobs { IfOk result (λ jobs.
        jobs.items ≡ flat_map (lent boss.now.mail from.0 (from.0 + q)) boards.old) }
{
    let mut jobs = Vec::with_capacity(alloc, boards.len())?;
    let mut n = 0;
    for pass in passes {
        let grant = source.handle(BoardNo(n as u8));
        boards[n].lend(alloc, grant, pass, &mut jobs)?;
        n += 1;
    }
    Ok(jobs)
}

/// Takes every board back that was lent, in order of board, with what it has noted and its pass. The
/// grants go back to the source, of which nothing was used while they were lent.
pub(crate) fn take_all_back<R: Wait, D: Device>(
    rt: &R,
    alloc: Global,
    boards: &mut [NamedBoard<D>],
    source: &mut Source,
    jobs: Vec<BoxedBoardJob<D>>,
    boss: &mut Boss,
) -> Result<Vec<Vec<Entry>>, NoMemory>
    requires few { length boards.old ≤ 16 }
    requires count { length jobs.items ≡ length boards.old }
    requires opened { source.old.is_open ≡ true }
    requires parts { source.old.handles ≡ map (λ p. unused p.grant) jobs.items }
    requires quiet { All (λ p. p.board.posts ≡ []) jobs.items }
    requires mail { All (λ p. p.pass.mail ≡ boss.old.mail) jobs.items }
    ensures source { OnOk result (source.new ≡ record source.old {
      handles = each_by its_grant source.old.handles jobs.items;
    }) }
    ensures boards { OnOk result (boards.new ≡ each_by put_back boards.old jobs.items) }
    ensures posts { OnOk result (boss.new ≡ record boss.old {
      taken = boss.old.taken ++ map (λ p. sent_by p.pass) jobs.items;
    }) }
    ensures entries { IfOk result (λ entries.
        all_entries entries.items ≡ flat_map (λ p. p.board.entries) jobs.items) }
{
    let mut entries = Vec::new(alloc);
    let mut n = 0;
    for job in jobs {
        let grant = boards[n].take_back(rt, job, boss, &mut entries)?;
        source.put(BoardNo(n as u8), grant);
        n += 1;
    }
    Ok(entries)
}

/// Who runs the boards of a round: so many workers, the helpers among them, and the gate that they enter
/// before each turn of a board that is lent to them.
#[derive(Clone, Copy)]
pub(crate) struct Crew<'a, R, D: Device + Send, G> {
    pub(crate) rt: &'a R,
    pub(crate) team: &'a Team<D>,
    pub(crate) workers: u8,
    pub(crate) gate: &'a G,
}

/// Lends every board to the workers for the slots of its part of the open grant, and takes it back.
/// All that the boards have posted meanwhile is taken out of their mail.
pub(crate) fn step_lent<R: Threads + Wait + Copy + Send + Sync, D: Device + Send, G: Gate>(
    crew: Crew<R, D, G>,
    alloc: Global,
    boards: &mut [NamedBoard<D>],
    source: &mut Source,
    from: Micros,
    q: u64,
) -> Result<RoundOutput, NoMemory>
    requires workers { (1 ≤ crew.workers) × (crew.workers ≤ 8) }
    requires within { from.0 + q ≤ 10000000000 }
    requires plans { first_without boards.old ≡ None }
    requires standing { AreStanding (1000 * from.0) (numbers_of boards.old) }
    requires some { 1 ≤ length boards.old }
    requires few { length boards.old ≤ 16 }
    requires opened { source.old.is_open ≡ true }
    requires parts { source.old.handles ≡ map (part_of from.0 (from.0 + q)) boards.old }
    ensures source { OnOk result (source.new ≡ record source.old { handles = map used_up source.old.handles }) }
    ensures boards { OnOk result (boards.new ≡ map (stepped (in_round from.0 q)) boards.old) }
    ensures posts { IfOk result (λ made. listing post_key made.posts.items
        ≡ listing post_key (flat_map (posts_made (in_round from.0 q)) boards.old)) }
    ensures keys { IfOk result (λ made. KeysDiffer post_key made.posts.items) }
    ensures entries { IfOk result (λ made.
        all_entries made.entries.items ≡ flat_map (entries_made (in_round from.0 q)) boards.old) }
{
    laws::arrival_laws();
    let Crew {
        rt,
        team,
        workers,
        gate,
    } = crew;
    let (mut boss, passes) = Mail::begin(rt, alloc, boards.len() as u8)?;
    let jobs = lend_all(alloc, boards, &boss, passes, source, from, q)?;
    let jobs = team.run(rt, alloc, jobs, workers, gate)?;
    let entries = take_all_back(rt, alloc, boards, source, jobs, &mut boss)?;
    let posts = boss.drain(rt)?;
    Ok(RoundOutput { posts, entries })
}

/// Has every board take the slots of its part of the open grant by itself, in order of time, and shows the boards to a
/// watcher before each slot. All that the boards have posted meanwhile is taken out of their mail.
pub(crate) fn step_driven<
    R: Threads + Wait + Copy + Send + Sync,
    D: Device + Send,
    W: Watcher<BoxedBoardJob<D>>,
>(
    rt: &R,
    watcher: &mut W,
    alloc: Global,
    boards: &mut [NamedBoard<D>],
    source: &mut Source,
    from: Micros,
    q: u64,
) -> Result<RoundOutput, NoMemory>
    requires within { from.0 + q ≤ 10000000000 }
    requires plans { first_without boards.old ≡ None }
    requires standing { AreStanding (1000 * from.0) (numbers_of boards.old) }
    requires some { 1 ≤ length boards.old }
    requires few { length boards.old ≤ 16 }
    requires opened { source.old.is_open ≡ true }
    requires parts { source.old.handles ≡ map (part_of from.0 (from.0 + q)) boards.old }
    ensures source { OnOk result (source.new ≡ record source.old { handles = map used_up source.old.handles }) }
    ensures boards { OnOk result (boards.new ≡ map (stepped (in_round from.0 q)) boards.old) }
    ensures posts { IfOk result (λ made. listing post_key made.posts.items
        ≡ listing post_key (flat_map (posts_made (in_round from.0 q)) boards.old)) }
    ensures keys { IfOk result (λ made. KeysDiffer post_key made.posts.items) }
    ensures entries { IfOk result (λ made.
        all_entries made.entries.items ≡ flat_map (entries_made (in_round from.0 q)) boards.old) }
{
    laws::arrival_laws();
    let (mut boss, passes) = Mail::begin(rt, alloc, boards.len() as u8)?;
    let jobs = lend_all(alloc, boards, &boss, passes, source, from, q)?;
    let jobs = run_boards_in_order(rt, jobs, watcher)?;
    let entries = take_all_back(rt, alloc, boards, source, jobs, &mut boss)?;
    let sent = boss.drain(rt)?;
    Ok(RoundOutput {
        posts: sent,
        entries,
    })
}
