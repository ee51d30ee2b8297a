//! A board under its name.
ghost use Rattle.std.specs.Prelude.{◌≡◌, ◌+◌, ◌%◌, ◌≤◌, ◌<◌, ◌++◌, ◌∷◌, [], length, take, ℕ, IsTrue, Some, None};
ghost use Rattle.std.specs.Prelude.{option_and_then, is_none, slice_get, IfOk, OnOk, OnErr};
ghost use Rattle.std.specs.Option.{option_map, ForSome};
ghost use Rattle.hub_mail.specs.Boss.{sent_by};
ghost use Rattle.log_merge.specs.Merge.{all_entries};
ghost use Rattle.board.specs.BoardState.{brought_to};
ghost use Rattle.board.specs.Changes.{with_bytes, with_speed, with_memory_in, handed, holds_each};
ghost use Rattle.board.specs.Space.{memory_at};
ghost use Rattle.board.specs.Valid.{IsBoard, IsStateFor};
ghost use Rattle.board.specs.View.{quiet};
ghost use Rattle.time_handle.specs.Grant.{fresh};
ghost use Rattle.lab_state.specs.Boundary as boundary_spec;
ghost use Rattle.lab_state.specs.Boundary.{note_by};
ghost use Rattle.lab_state.specs.Inner.BoardChange.{changed_by, MayChange};
ghost use Rattle.lab_state.specs.Inner.Lending.{lent, away, put_back};
ghost use Rattle.lab_state.specs.Inner.Standing.{HasDevices};
ghost use Rattle.lab_state.specs.Inner.Time.{number_of, part_of, speed_of};
ghost use Rattle.lab_state.specs.One.{with_view};
ghost use Rattle.lab_state.specs.Resumed.{resumed_board};
ghost use Rattle.lab_state.specs.Round.{granted, stepped, posts_made, entries_made};
ghost use Rattle.lab_state.specs.Workers.{is_awake};

use crate::board_change::BoardChange;
use board::{Board, BoardState, SlotAt, Turn};
use board_job::{BoardJob, BoxedBoardJob};
use dev_core::{Device, Entry, Kind, Payload, Post, Taken};
use hub_mail::{Boss, Pass};
use lab_num::{NoMemory, Text};
use log_merge::Note;
use page_ram::PageRam;
use std::alloc::Global;
use std::marker::Model;
use std::sync::Wait;
use sys_bus::BoardPlan;
use time_handle::Handle;

/// The speed at which a board without a plan is a member of the source of time.
pub const LEAST_SPEED: u32 = 1;

/// A name, and the board under it if there is one. Nobody is yet to take a post or an entry of it.
#[derive(Drop)]
pub struct NamedBoard<D: Device> {
    name: Text,
    board: Option<Board<D>>,
}

impl<D: Device> Model for NamedBoard<D> {
    ghost use Rattle.std.specs.Prelude.{◌≡◌};
    ghost use Rattle.std.specs.Option.{option_map};
    ghost use Rattle.board.specs.View.{quiet};
    ghost use Rattle.lab_state.specs.Board.{Board};

    ghost Value = { Board };

    ghost view = { λ n. record {
      name = n.name;
      view = option_map (λ state. state.view) n.board;
    } };

    ghost invariant = { λ n. n.board ≡ option_map (λ state. quiet state.view) n.board };
}

/// What the boards have made in a round: the posts in any order, the entries in order of the boards.
#[derive(Drop)]
pub struct RoundOutput {
    pub posts: Vec<Post>,
    pub entries: Vec<Vec<Entry>>,
}

impl RoundOutput {
    pub fn new(alloc: Global) -> RoundOutput
        ensures posts { result.posts.items ≡ [] }
        ensures entries { result.entries.items ≡ [] }
    {
        RoundOutput {
            posts: Vec::new(alloc),
            entries: Vec::new(alloc),
        }
    }
}

/// Moves the posts of a board to the end of a list. Without memory for them they are lost.
fn take_posts<D: Device>(board: &mut Board<D>, posts: &mut Vec<Post>) -> Result<(), NoMemory>
    ensures board { board.new ≡ record board.old { posts = [] } }
    ensures posts { OnOk result (posts.new.items ≡ posts.old.items ++ board.old.posts) }
{
    let mut starved = false;
    while let Some(post) = board.next_post() {
        starved |= posts.push(post).is_err();
        board.drop_post();
    }
    if starved { Err(NoMemory) } else { Ok(()) }
}

/// Puts what a board has noted at the end of the rest. Without memory for it it is lost.
fn put_entries(entries: &mut Vec<Vec<Entry>>, noted: Vec<Entry>) -> Result<(), NoMemory>
    ensures { OnOk result (all_entries entries.new.items ≡ all_entries entries.old.items ++ noted.items) }
{
    if noted.is_empty() {
        return Ok(());
    }
    entries.push(noted)?;
    Ok(())
}

/// Gives a board the slots of a grant.
fn take_turn<D: Device>(board: &mut Board<D>, grant: &Handle) -> Result<(), NoMemory>
    requires within { grant.now.to ≤ 10000000000 }
    requires part { grant.now
        ≡ fresh grant.now.from grant.now.to board.old.view.numbers.speed }
    requires quiet { board.old ≡ quiet board.old.view }
    requires posts { board.old.view.numbers.posted ≤ 10000000000000 }
    requires entries { board.old.view.numbers.entered ≤ 10000000000000 }
    ensures { OnOk result (board.new ≡ granted grant.now.from grant.now.to board.old.view) }
{
    let first = SlotAt {
        from: grant.from(),
        first: grant.taken(),
    };
    match board.turn(first, grant.left()) {
        Turn::Used(_) => Ok(()),
        Turn::Starved(_) => Err(NoMemory),
    }
}

/// Gives a board the slots of a grant, and takes what it has made. Without memory for that it is lost.
fn step_board<D: Device>(
    board: &mut Board<D>,
    grant: &Handle,
    made: &mut RoundOutput,
) -> Result<(), NoMemory>
    requires within { grant.now.to ≤ 10000000000 }
    requires part { grant.now
        ≡ fresh grant.now.from grant.now.to board.old.view.numbers.speed }
    requires quiet { board.old ≡ quiet board.old.view }
    requires posts { board.old.view.numbers.posted ≤ 10000000000000 }
    requires entries { board.old.view.numbers.entered ≤ 10000000000000 }
    ensures quiet { board.new ≡ quiet board.new.view }
    ensures view { OnOk result (board.new.view
        ≡ (granted grant.now.from grant.now.to board.old.view).view) }
    ensures posts { OnOk result (made.new.posts.items
        ≡ made.old.posts.items ++ (granted grant.now.from grant.now.to board.old.view).posts) }
    ensures entries { OnOk result (all_entries made.new.entries.items
        ≡ all_entries made.old.entries.items
        ++ (granted grant.now.from grant.now.to board.old.view).entries) }
{
    let stepped = take_turn(board, grant);
    let taken = take_posts(board, &mut made.posts);
    put_entries(&mut made.entries, board.take_entries())?;
    stepped?;
    taken
}

/// A board with a grant at its speed and a new pass, as the workers take it.
fn wrapped<D: Device>(board: Board<D>, grant: Handle, pass: Pass) -> BoardJob<D>
    requires within { grant.to ≤ 10000000000 }
    requires part { grant ≡ fresh grant.from grant.to board.view.numbers.speed }
    requires posts { board.view.numbers.posted ≤ 10000000000000 }
    requires entries { board.view.numbers.entered ≤ 10000000000000 }
    requires none { board.posts ≡ [] }
    requires own { pass.board ≡ board.view.numbers.number }
    requires new { pass.posted ≡ [] }
    ensures { result ≡ record { board = board; grant = grant; pass = pass } }
{
    // a grant has at most ten million million slots left
    let _left = grant.left();
    BoardJob::new(board, grant, pass)
}

/// What the log notes of a payload that a shown device was handed and answered so.
fn note_of(payload: &Payload, taken: Taken) -> Option<Note>
    ensures { result ≡ boundary_spec.note_of payload.now taken }
{
    match (payload, taken) {
        (Payload::Byte(_), Taken::Overrun) => Some(Note::Overrun),
        (Payload::Frame(frame), Taken::Kept) => Some(Note::Received(*frame)),
        (Payload::Frame(frame), Taken::Overrun) => Some(Note::Lost(*frame)),
        _ => None,
    }
}

/// Hands a payload to a device of a board, and gives what the log notes of it.
fn deliver_to<D: Device>(board: &mut Board<D>, dev: u8, payload: &Payload) -> Option<Note>
    requires { dev < length board.old.view.space.plan.kinds }
    ensures board { board.new ≡ record board.old { view = handed board.old.view dev payload.now } }
    ensures note { result ≡ note_by dev payload.now board.old.view }
{
    // a board has a device for each kind of its plan
    let _plan = board.plan();
    let shown = board.is_shown(dev);
    let taken = board.deliver(dev, payload);
    if shown { note_of(payload, taken) } else { None }
}

/// The kind of a device of a plan, if the plan has it.
fn kind_in(plan: &BoardPlan, dev: u8) -> Option<Kind>
    ensures { result ≡ slice_get plan.now.kinds dev }
{
    plan.kinds.items().get(dev as usize).copied()
}

impl<D: Device> NamedBoard<D> {
    /// A name without a board.
    pub fn new(name: Text) -> NamedBoard<D>
        ensures { result ≡ record { name = name; view = None } }
    {
        NamedBoard { name, board: None }
    }

    /// Puts a board under the name.
    pub fn fit(&mut self, board: Board<D>)
        requires { board ≡ quiet board.view }
        ensures { self.new ≡ record self.old { view = Some board.view } }
    {
        let _board = self.board.insert(board);
    }

    pub fn name(&self) -> &Text
        ensures { result.now ≡ self.now.name }
    {
        &self.name
    }

    pub fn board(&self) -> Option<&Board<D>>
        ensures { option_map (λ board. board.now) result ≡ option_map quiet self.now.view }
    {
        self.board.as_ref()
    }

    /// A board is one that there can be. Nothing is changed and told when this runs.
    pub fn validity_law(&self)
        ensures { ForSome self.now.view IsBoard }
    {
        if let Some(board) = &self.board {
            board.validity_law();
        }
    }

    /// A board has the devices of its plan. Nothing is changed and told when this runs.
    pub fn devices_law(&self)
        ensures { ForSome self.now.view HasDevices }
    {
        if let Some(board) = &self.board {
            let _plan = board.plan();
        }
    }

    /// The speed of the board, or the least where there is none.
    pub fn speed(&self) -> u32
        ensures value { result ≡ speed_of (number_of self.now) }
        ensures least { 1 ≤ result }
        ensures most { result ≤ 1000 }
    {
        match &self.board {
            Some(board) => board.speed(),
            None => LEAST_SPEED,
        }
    }

    /// Whether there is no board under the name.
    pub fn is_bare(&self) -> bool
        ensures { result ≡ is_none self.now.view }
    {
        self.board.is_none()
    }

    /// Whether there is a board under the name with a processor that neither waits nor is halted.
    pub fn is_awake(&self) -> bool
        ensures { result ≡ is_awake self.now }
    {
        match &self.board {
            Some(board) => !board.is_asleep(),
            None => false,
        }
    }

    /// The kind of a device of the board, if there is one.
    pub fn device_kind(&self, dev: u8) -> Option<Kind>
        ensures { result ≡ option_and_then (λ v. slice_get v.space.plan.kinds dev) self.now.view }
    {
        match &self.board {
            Some(board) => kind_in(board.plan(), dev),
            None => None,
        }
    }

    /// Gives the board the slots of a grant, and takes what it has made. Without memory for that
    /// it is lost. Where there is no board the slots pass.
    pub fn step(&mut self, grant: &Handle, made: &mut RoundOutput) -> Result<(), NoMemory>
        requires within { grant.now.to ≤ 10000000000 }
        requires part { grant.now ≡ part_of grant.now.from grant.now.to self.old }
        requires made { ForSome self.old.view (λ v.
            (v.numbers.posted ≤ 10000000000000) × (v.numbers.entered ≤ 10000000000000)) }
        ensures board { OnOk result (self.new
            ≡ stepped (granted grant.now.from grant.now.to) self.old) }
        ensures posts { OnOk result (made.new.posts.items ≡ made.old.posts.items
            ++ posts_made (granted grant.now.from grant.now.to) self.old) }
        ensures entries { OnOk result (all_entries made.new.entries.items
            ≡ all_entries made.old.entries.items
            ++ entries_made (granted grant.now.from grant.now.to) self.old) }
    {
        match &mut self.board {
            Some(board) => step_board(board, grant, made),
            None => Ok(()),
        }
    }

    /// Puts the board with a grant and a new pass at the end of a list; its name stays. Without
    /// memory for that it is lost. Where there is no board nothing is put there.
    pub fn lend(
        &mut self,
        alloc: Global,
        grant: Handle,
        pass: Pass,
        jobs: &mut Vec<BoxedBoardJob<D>>,
    ) -> Result<(), NoMemory>
        requires within { grant.to ≤ 10000000000 }
        requires part { grant ≡ part_of grant.from grant.to self.old }
        requires made { ForSome self.old.view (λ v.
            (v.numbers.posted ≤ 10000000000000) × (v.numbers.entered ≤ 10000000000000)) }
        requires own { ForSome self.old.view (λ v. pass.board ≡ v.numbers.number) }
        requires new { pass.posted ≡ [] }
        ensures board { self.new ≡ away self.old }
        ensures jobs { OnOk result (jobs.new.items
            ≡ jobs.old.items ++ lent pass.mail grant.from grant.to self.old) }
    {
        if let Some(board) = self.board.take() {
            jobs.push(BoxedBoardJob::new(alloc, wrapped(board, grant, pass))?)?;
        }
        Ok(())
    }

    /// Puts a board back under the name, takes what it has noted and its pass, and gives its grant
    /// back. Without memory for that it is lost.
    pub fn take_back<R: Wait>(
        &mut self,
        rt: &R,
        job: BoxedBoardJob<D>,
        boss: &mut Boss,
        entries: &mut Vec<Vec<Entry>>,
    ) -> Result<Handle, NoMemory>
        requires quiet { job.board.posts ≡ [] }
        requires mail { job.pass.mail ≡ boss.old.mail }
        ensures board { OnOk result (self.new ≡ put_back self.old job) }
        ensures grant { IfOk result (λ grant. grant ≡ job.grant) }
        ensures posts { boss.new
            ≡ record boss.old { taken = boss.old.taken ++ sent_by job.pass ∷ [] } }
        ensures entries { OnOk result (all_entries entries.new.items
            ≡ all_entries entries.old.items ++ job.board.entries) }
    {
        let (mut board, grant, pass) = job.into_board_job().into_parts();
        boss.take_in(rt, pass);
        let noted = board.take_entries();
        self.fit(board);
        put_entries(entries, noted)?;
        Ok(grant)
    }

    /// Hands a payload to a device of the board, and gives what the log notes of it.
    pub fn deliver(&mut self, dev: u8, payload: &Payload) -> Option<Note>
        requires { ForSome self.old.view (λ v. dev < length v.space.plan.kinds) }
        ensures board { self.new ≡ with_view (λ v. handed v dev payload.now) self.old }
        ensures note { result ≡ option_and_then (note_by dev payload.now) self.old.view }
    {
        match &mut self.board {
            Some(board) => deliver_to(board, dev, payload),
            None => None,
        }
    }

    /// Changes the board.
    pub fn change(&mut self, change: BoardChange)
        requires { ForSome self.old.view (MayChange change) }
        ensures { self.new ≡ with_view (changed_by change) self.old }
    {
        if let Some(board) = &mut self.board {
            change.make(board);
        }
    }

    /// Sets the speed of the board.
    pub fn set_speed(&mut self, speed: u32)
        requires least { 1 ≤ speed }
        requires most { speed ≤ 1000 }
        requires shared { ForSome self.old.view (λ v. speed % length v.cores ≡ 0) }
        ensures { self.new ≡ with_view (λ v. with_speed v speed) self.old }
    {
        if let Some(board) = &mut self.board {
            board.set_speed(speed);
        }
    }

    /// Brings the board to a state.
    fn put_state(&mut self, s: &BoardState)
        requires { ForSome self.old.view (λ v. IsStateFor v.space.plan s.now) }
        ensures { self.new ≡ with_view (λ v. brought_to v s.now) self.old }
    {
        if let Some(board) = &mut self.board {
            board.put_state(s);
        }
    }

    /// Brings the board to a state, if there is one.
    pub fn resume(&mut self, state: &Option<BoardState>)
        requires { ForSome self.old.view (λ v. ForSome state.now (IsStateFor v.space.plan)) }
        ensures { self.new ≡ resumed_board self.old state.now }
    {
        if let Some(s) = state {
            self.put_state(s);
        }
    }

    /// Puts another memory of the same size in the place of one, and ends all reservations.
    pub fn put_memory(&mut self, part: u8, memory: PageRam)
        requires part { ForSome self.old.view (λ v. part < length v.space.memories) }
        requires size { ForSome self.old.view (λ v.
            length memory ≡ length (memory_at v.space part)) }
        ensures { self.new ≡ with_view (λ v. with_memory_in v part memory) self.old }
    {
        if let Some(board) = &mut self.board {
            board.put_memory(part, memory);
        }
    }

    /// Writes bytes into the memories from an address on, and ends all reservations. After an `Err`
    /// some of the first of them are written.
    pub fn copy_in(&mut self, at: u32, bytes: &[u8]) -> Result<(), NoMemory>
        requires { ForSome self.old.view (λ v.
            IsTrue (holds_each v.space at (length bytes.now))) }
        ensures ok { OnOk result (self.new ≡ with_view (λ v. with_bytes v at bytes.now) self.old) }
        ensures err { OnErr result ((n : ℕ) × ((n ≤ length bytes.now)
            × (self.new ≡ with_view (λ v. with_bytes v at (take n bytes.now)) self.old))) }
    {
        match &mut self.board {
            Some(board) => board.copy_in(at, bytes),
            None => Ok(()),
        }
    }
}
