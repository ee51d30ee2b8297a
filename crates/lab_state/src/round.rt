//! One round: every board takes the slots that its grant pays, and then what they have sent is
//! handed over as far as it is due.
ghost use Rattle.std.specs.Prelude.{◌≡◌, ◌+◌, ◌*◌, ◌<◌, ◌≤◌, ◌++◌, map, filter, length, true, false, None, IfOk, OnOk};
ghost use Rattle.std.specs.Prelude.{All, OnErr};
ghost use Rattle.std.specs.Option.{option_map};
ghost use Rattle.std.specs.List.{flat_map};
ghost use Rattle.lab_num.specs.Key.{KeysDiffer};
ghost use Rattle.lab_num.specs.Listing.{listing};
ghost use Rattle.dev_core.specs.Post.{entry_key, post_key};
ghost use Rattle.log_merge.specs.Merge.{all_entries};
ghost use Rattle.lab_state.specs.Inner.End.{Played, in_round, played};
ghost use Rattle.lab_state.specs.Inner.Standing.{outlines, AreDevices, IsFromBoard};
ghost use Rattle.lab_state.specs.Inner.Time.{numbers_of, AreStanding, IsTimed, part_of, used_up};
ghost use Rattle.lab_state.specs.One.{first_without, HaveAllPlans};
ghost use Rattle.lab_state.specs.Pending.{ArePending};
ghost use Rattle.lab_state.specs.Round as round_spec;
ghost use Rattle.lab_state.specs.Round.{stepped, posts_made, entries_made, slot_items};
ghost use Rattle.lab_state.specs.Workers.{is_awake, least_shared};

use crate::boards::devices_laws;
use crate::boundary::{hand_over_due, pause_of, push_pause};
use crate::faults::LabFault;
use crate::hub_list::HubList;
use crate::lab::Lab;
use crate::lending::{Crew, step_driven, step_lent};
use crate::named_board::{NamedBoard, RoundOutput};
use crate::team::Team;
use board::laws;
use board_job::BoxedBoardJob;
use dev_core::{Device, Entry, Post};
use floor_run::Gate;
use lab_num::{BoardNo, Key, Micros, NoMemory, Rows, listing_laws};
use log_merge::{LogItem, Member0, merge_entries, merge_posts};
use probe_jobs::{Unwatched, Watcher};
use std::alloc::Global;
use std::sync::Wait;
use std::thread::Threads;
use time_source::Source;

/// What a round or a run has come to.
#[derive(Drop)]
pub struct RoundLog {
    /// The items of the log, in its order.
    pub lines: Rows<LogItem>,

    /// The event that asked for a pause, if one did.
    pub paused: Option<Key>,
}

/// What the slots of a round have made, in rising order of key: the posts, and the entries as items
/// of the log.
#[derive(Drop)]
struct Slots {
    posts: Vec<Post>,
    items: Vec<LogItem>,
}

/// Gives every board the slots of its part of the open grant, and takes what they have made.
fn step_all<D: Device>(
    boards: &mut [NamedBoard<D>],
    source: &Source,
    from: Micros,
    q: u64,
    made: &mut RoundOutput,
) -> Result<(), NoMemory>
    requires within { from.0 + q ≤ 10000000000 }
    requires standing { AreStanding (1000 * from.0) (numbers_of boards.old) }
    requires few { length boards.old ≤ 16 }
    requires opened { source.now.is_open ≡ true }
    requires parts { source.now.handles ≡ map (part_of from.0 (from.0 + q)) boards.old }
    ensures boards { OnOk result (boards.new ≡ map (stepped (in_round from.0 q)) boards.old) }
    ensures posts { OnOk result (made.new.posts.items
        ≡ made.old.posts.items ++ flat_map (posts_made (in_round from.0 q)) boards.old) }
    ensures entries { OnOk result (all_entries made.new.entries.items
        ≡ all_entries made.old.entries.items
        ++ flat_map (entries_made (in_round from.0 q)) boards.old) }
{
    for (n, board) in boards.iter_mut().enumerate() {
        let grant = source.handle(BoardNo(n as u8));
        board.step(&grant, made)?;
    }
    Ok(())
}

/// Uses up the open grant.
fn use_up(source: &mut Source, members: usize)
    requires opened { source.old.is_open ≡ true }
    requires all { members ≡ length source.old.handles }
    requires few { members ≤ 16 }
    ensures { source.new ≡ record source.old { handles = map used_up source.old.handles } }
{
    for n in 0..members {
        let member = BoardNo(n as u8);
        let mut grant = source.handle(member);
        let _report = grant.used(grant.left());
        source.put(member, grant);
    }
}

/// An entry as an item of the log.
fn item_of(entry: &Entry) -> LogItem
    ensures { result ≡ round_spec.item_of entry.now }
{
    let slot = Member0 {
        at: entry.key.at,
        board: entry.key.board,
    };
    LogItem::Slot(slot, entry.what)
}

/// Entries as items of the log.
fn items_of(alloc: Global, entries: &[Entry]) -> Result<Vec<LogItem>, NoMemory>
    ensures { IfOk result (λ items. items.items ≡ map round_spec.item_of entries.now) }
{
    let items = entries.iter().map(item_of).collect(alloc)?;
    Ok(items)
}

/// What boards have made in a round, in rising order of key.
fn in_order(alloc: Global, made: RoundOutput) -> Result<Slots, NoMemory>
    requires posts { KeysDiffer post_key made.posts.items }
    requires entries { KeysDiffer entry_key (all_entries made.entries.items) }
    ensures posts { IfOk result (λ slots. slots.posts.items ≡ listing post_key made.posts.items) }
    ensures items { IfOk result (λ slots. slots.items.items
        ≡ map round_spec.item_of (listing entry_key (all_entries made.entries.items))) }
{
    let RoundOutput { posts, entries } = made;
    let posts = merge_posts(alloc, posts)?;
    let entries = merge_entries(alloc, entries)?;
    let items = items_of(alloc, &entries)?;
    Ok(Slots { posts, items })
}

/// Gives every board the slots of its part of the open grant in its place, and takes what they have
/// made.
fn step_in_place<D: Device>(
    alloc: Global,
    boards: &mut [NamedBoard<D>],
    source: &mut Source,
    from: Micros,
    q: u64,
) -> Result<RoundOutput, NoMemory>
    requires within { from.0 + q ≤ 10000000000 }
    requires standing { AreStanding (1000 * from.0) (numbers_of boards.old) }
    requires few { length boards.old ≤ 16 }
    requires opened { source.old.is_open ≡ true }
    requires parts { source.old.handles ≡ map (part_of from.0 (from.0 + q)) boards.old }
    ensures source { OnOk result (source.new
        ≡ record source.old { handles = map used_up source.old.handles }) }
    ensures boards { OnOk result (boards.new ≡ map (stepped (in_round from.0 q)) boards.old) }
    ensures posts { IfOk result (λ made.
        made.posts.items ≡ flat_map (posts_made (in_round from.0 q)) boards.old) }
    ensures entries { IfOk result (λ made. all_entries made.entries.items
        ≡ flat_map (entries_made (in_round from.0 q)) boards.old) }
{
    let mut made = RoundOutput::new(alloc);
    step_all(boards, source, from, q, &mut made)?;
    use_up(source, boards.len());
    Ok(made)
}

/// How many boards are awake.
fn count_awake<D: Device>(boards: &[NamedBoard<D>]) -> usize
    ensures value { result ≡ length (filter is_awake boards.now) }
    ensures within { result ≤ length boards.now }
{
    boards.iter().filter(|board| board.is_awake()).count()
}

/// How many slots the boards that are awake take in so many microseconds.
pub(crate) fn awake_slots<D: Device>(boards: &[NamedBoard<D>], q: u64) -> u64 {
    boards
        .iter()
        .filter(|board| board.is_awake())
        .fold(0_u64, |slots, board| {
            slots.saturating_add(u64::from(board.speed()).saturating_mul(q))
        })
}

/// Whether a round of so many slots of boards that are awake is shared. It is where the gate may hold someone.
fn is_shared<D: Device + Send, G: Gate>(team: &Team<D>, gate: &G, slots: u64) -> bool
    ensures { least_shared team.now ≤ slots → result ≡ true }
{
    !gate.is_open() || slots >= team.least_shared()
}

/// How many workers share a round: no more than boards are awake, since a board that is asleep passes over
/// its slots in one step, and one alone where the boards have too few slots for it and the gate holds nobody.
fn sharers<D: Device + Send, G: Gate>(
    team: &Team<D>,
    workers: u8,
    gate: &G,
    boards: &[NamedBoard<D>],
    q: u64,
) -> u8
    requires workers { (1 ≤ workers) × (workers ≤ 8) }
    requires few { length boards.now ≤ 16 }
    ensures some { 1 ≤ result }
    ensures most { result ≤ workers }
    ensures awake { 1 < result → result ≤ length (filter is_awake boards.now) }
    ensures boards { 1 < result → 1 ≤ length boards.now }
{
    if workers == 1 {
        return 1;
    }
    let awake = count_awake(boards);
    if awake <= 1 || !is_shared(team, gate, awake_slots(boards, q)) {
        return 1;
    }
    workers.min(awake as u8)
}

/// Gives every board the slots of its part of the open grant, and takes what they have made. Where one
/// worker does it and nobody watches, the boards stay where they are.
fn step_boards<
    R: Threads + Wait + Copy + Send + Sync,
    D: Device + Send,
    G: Gate,
    W: Watcher<BoxedBoardJob<D>>,
>(
    crew: Crew<R, D, G>,
    watcher: &mut W,
    alloc: Global,
    boards: &mut [NamedBoard<D>],
    source: &mut Source,
    from: Micros,
    q: u64,
) -> Result<RoundOutput, NoMemory>
    requires workers { (1 ≤ crew.workers) × (crew.workers ≤ 8) }
    requires within { from.0 + q ≤ 10000000000 }
    requires plans { first_without boards.old ≡ None }
    requires standing { AreStanding (1000 * from.0) (numbers_of boards.old) }
    requires few { length boards.old ≤ 16 }
    requires opened { source.old.is_open ≡ true }
    requires parts { source.old.handles ≡ map (part_of from.0 (from.0 + q)) boards.old }
    ensures source { OnOk result (source.new
        ≡ record source.old { handles = map used_up source.old.handles }) }
    ensures boards { OnOk result (boards.new ≡ map (stepped (in_round from.0 q)) boards.old) }
    ensures posts { IfOk result (λ made. listing post_key made.posts.items
        ≡ listing post_key (flat_map (posts_made (in_round from.0 q)) boards.old)) }
    ensures keys { IfOk result (λ made. KeysDiffer post_key made.posts.items) }
    ensures entries { IfOk result (λ made. all_entries made.entries.items
        ≡ flat_map (entries_made (in_round from.0 q)) boards.old) }
{
    laws::stretches_number();
    let Crew {
        rt,
        team,
        workers,
        gate,
    } = crew;
    if watcher.drives() && !boards.is_empty() {
        return step_driven(rt, watcher, alloc, boards, source, from, q);
    }
    let workers = sharers(team, workers, gate, boards, q);
    if workers == 1 {
        return step_in_place(alloc, boards, source, from, q);
    }
    let crew = Crew {
        rt,
        team,
        workers,
        gate,
    };
    step_lent(crew, alloc, boards, source, from, q)
}

/// Grants the boards `q` microseconds, and takes what they have made.
fn take_slots<
    R: Threads + Wait + Copy + Send + Sync,
    D: Device + Send,
    G: Gate,
    W: Watcher<BoxedBoardJob<D>>,
>(
    crew: Crew<R, D, G>,
    watcher: &mut W,
    alloc: Global,
    boards: &mut [NamedBoard<D>],
    source: &mut Source,
    q: u64,
) -> Result<Slots, NoMemory>
    requires within { source.old.end + q ≤ 10000000000 }
    requires workers { (1 ≤ crew.workers) × (crew.workers ≤ 8) }
    requires plans { first_without boards.old ≡ None }
    requires few { length boards.old ≤ 16 }
    requires timed { IsTimed source.old (numbers_of boards.old) }
    ensures end { OnOk result (source.new.end ≡ source.old.end + q) }
    ensures timed { OnOk result (IsTimed source.new (numbers_of boards.new)) }
    ensures boards { OnOk result (boards.new
        ≡ map (stepped (in_round source.old.end q)) boards.old) }
    ensures posts { IfOk result (λ slots. slots.posts.items
        ≡ listing post_key (flat_map (posts_made (in_round source.old.end q)) boards.old)) }
    ensures items { IfOk result (λ slots. slots.items.items
        ≡ slot_items (in_round source.old.end q) boards.old) }
{
    laws::stretches_number();
    let from = source.elapsed();
    source.grant(q);
    let made = step_boards(crew, watcher, alloc, boards, source, from, q)?;
    source.close();
    in_order(alloc, made)
}

fn key_of(post: &Option<Post>) -> Option<Key>
    ensures { result ≡ option_map post_key post.now }
{
    post.as_ref().map(|post| post.key)
}

/// Puts what was noted at the boundary, and then its pause if there is one, at the end of the items.
fn push_end(
    items: &mut Vec<LogItem>,
    at: Micros,
    notes: &[LogItem],
    pause: &Option<Post>,
) -> Result<(), NoMemory>
    ensures { OnOk result (items.new.items
        ≡ items.old.items ++ notes.now ++ round_spec.pause_items at.0 pause.now) }
{
    items.extend_from_slice(notes)?;
    push_pause(items, at, pause)
}

/// Runs the boards for a round of `q` microseconds, and hands over what is due by then.
fn play<
    R: Threads + Wait + Copy + Send + Sync,
    D: Device + Send,
    G: Gate,
    W: Watcher<BoxedBoardJob<D>>,
>(
    crew: Crew<R, D, G>,
    watcher: &mut W,
    alloc: Global,
    boards: &mut [NamedBoard<D>],
    source: &mut Source,
    hubs: &HubList,
    pending: &mut Vec<Post>,
    q: u64,
) -> Result<RoundLog, NoMemory>
    requires workers { (1 ≤ crew.workers) × (crew.workers ≤ 8) }
    requires within { source.old.end + q ≤ 10000000000 }
    requires plans { first_without boards.old ≡ None }
    requires few { length boards.old ≤ 16 }
    requires timed { IsTimed source.old (numbers_of boards.old) }
    requires devices { AreDevices (outlines boards.old) hubs.now }
    requires pending { ArePending hubs.now source.old.end pending.old.items }
    requires sent { All (IsFromBoard (outlines boards.old) (numbers_of boards.old))
        pending.old.items }
    ensures end { OnOk result (source.new.end ≡ source.old.end + q) }
    ensures timed { OnOk result (IsTimed source.new (numbers_of boards.new)) }
    ensures outlines { OnOk result (outlines boards.new ≡ outlines boards.old) }
    ensures played { IfOk result (λ log. ◌≡◌ {A = Played}
        (record {
          boards = boards.new;
          pending = pending.new.items;
          items = log.lines;
          paused = log.paused;
        })
        (played source.old.end q hubs.now boards.old pending.old.items)) }
    ensures pending { OnOk result (ArePending hubs.now source.new.end pending.new.items) }
    ensures sent { OnOk result (All (IsFromBoard (outlines boards.new) (numbers_of boards.new))
        pending.new.items) }
{
    laws::stretches_keep_plans();
    laws::stretches_keep_time();
    laws::stretches_number();
    laws::stretches_tell_of_devices();
    listing_laws::<Post>();
    devices_laws(boards);
    let Slots { posts, mut items } = take_slots(crew, watcher, alloc, boards, source, q)?;
    let at = source.elapsed();
    let notes = hand_over_due(alloc, boards, hubs, pending, &posts, at)?;
    let pause = pause_of(&posts);
    push_end(&mut items, at, &notes, &pause)?;
    Ok(RoundLog {
        lines: Rows::of(items),
        paused: key_of(&pause),
    })
}

impl<D: Device + Send> Lab<D> {
    /// Runs one round of `q` microseconds as `round` does. Its workers are the caller and the helpers of the team,
    /// if it has any. A watcher who wants to be shown the boards has the caller run them alone, in order of time. The
    /// round is the same whoever watches. `LabFault::Memory` spends the laboratory.
    pub fn round_by<R: Threads + Wait + Copy + Send + Sync, G: Gate, W: Watcher<BoxedBoardJob<D>>>(
        &mut self,
        rt: &R,
        team: &Team<D>,
        q: u64,
        workers: u8,
        gate: &G,
        watcher: &mut W,
    ) -> Result<RoundLog, LabFault>
        requires some { 0 < q }
        requires workers { (1 ≤ workers) × (workers ≤ 8) }
        requires plans { self.old.spent ≡ false → HaveAllPlans self.old.lab }
        requires within { self.old.spent ≡ false → self.old.lab.now + q ≤ 10000000000 }
        ensures lab { OnOk result (self.new
            ≡ record { lab = (round_spec.round self.old.lab q).lab; spent = false }) }
        ensures lines { IfOk result (λ log. log.lines ≡ (round_spec.round self.old.lab q).items) }
        ensures paused { IfOk result (λ log.
            log.paused ≡ (round_spec.round self.old.lab q).paused) }
        ensures plans { OnOk result (HaveAllPlans self.new.lab) }
        ensures err { OnErr result (self.new.spent ≡ true) }
        ensures spent { self.old.spent ≡ true → result ≡ Err LabFault.Memory }
    {
        if self.spent {
            return Err(LabFault::Memory);
        }
        let crew = Crew {
            rt,
            team,
            workers,
            gate,
        };
        let Ok(log) = play(
            crew,
            watcher,
            self.alloc,
            &mut self.boards,
            &mut self.source,
            &self.hubs,
            &mut self.pending,
            q,
        ) else {
            self.spent = true;
            return Err(LabFault::Memory);
        };
        Ok(log)
    }

    /// Runs one round of `q` microseconds. Where two boards or more are awake, and have slots enough
    /// for it or a gate that is not open, several workers take turns of the boards, on threads, and
    /// enter the gate before each; else board after board takes its slots, and nobody enters the
    /// gate. `LabFault::Memory` spends the laboratory.
    pub fn round<R: Threads + Wait + Copy + Send + Sync, G: Gate>(
        &mut self,
        rt: &R,
        q: u64,
        workers: u8,
        gate: &G,
    ) -> Result<RoundLog, LabFault>
        requires some { 0 < q }
        requires workers { (1 ≤ workers) × (workers ≤ 8) }
        requires plans { self.old.spent ≡ false → HaveAllPlans self.old.lab }
        requires within { self.old.spent ≡ false → self.old.lab.now + q ≤ 10000000000 }
        ensures lab { OnOk result (self.new
            ≡ record { lab = (round_spec.round self.old.lab q).lab; spent = false }) }
        ensures lines { IfOk result (λ log. log.lines ≡ (round_spec.round self.old.lab q).items) }
        ensures paused { IfOk result (λ log.
            log.paused ≡ (round_spec.round self.old.lab q).paused) }
        ensures plans { OnOk result (HaveAllPlans self.new.lab) }
        ensures err { OnErr result (self.new.spent ≡ true) }
        ensures spent { self.old.spent ≡ true → result ≡ Err LabFault.Memory }
    {
        let team = Team::none();
        let mut unwatched = Unwatched::<BoxedBoardJob<D>>::new(self.alloc);
        self.round_by(rt, &team, q, workers, gate, &mut unwatched)
    }
}
