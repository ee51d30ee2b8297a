//! What a board makes.
ghost use Rattle.std.specs.Prelude.{◌≡◌, ◌↔◌, ℕ, ◌<◌, [], IfOk, OnOk, OnErr, IsTrue};
ghost use Rattle.std.specs.Vec.{vec_len, vec_capacity};
ghost use Rattle.board_space.specs.Space.{Space};
ghost use Rattle.board.specs.HartBus.{posted, entered, entered_if, note_if, post_of, entry_of, key_of};
ghost use Rattle.board.specs.Inner.Outbox.{bus_with, HasRoom};

use crate::numbers::Numbers;
use dev_core::{Entry, Payload, Post, What};
use lab_num::{BoardNo, Key, Member, Micros, NoMemory, PostNo};
use std::alloc::Global;
use std::collections::VecDeque;

/// A board's numbers, and what it has made and nobody has taken yet.
#[derive(Drop)]
pub struct Outbox {
    pub numbers: Numbers,
    pub posts: VecDeque<Post>,
    pub entries: Vec<Entry>,
}

impl Outbox {
    /// Nothing is made yet. There is room for a post and an entry.
    pub fn new(alloc: Global, number: BoardNo, speed: u32) -> Result<Outbox, NoMemory>
        ensures numbers { IfOk result (λ outbox.
            outbox.numbers ≡ record { number = number.0; speed = speed; posted = 0; entered = 0 }) }
        ensures posts { IfOk result (λ outbox. outbox.posts.items ≡ []) }
        ensures entries { IfOk result (λ outbox. outbox.entries.items ≡ []) }
    {
        let posts = VecDeque::with_capacity(alloc, 1)?;
        let entries = Vec::with_capacity(alloc, 1)?;
        Ok(Outbox {
            numbers: Numbers::new(number, speed),
            posts,
            entries,
        })
    }

    /// The key of what the board makes in a slot at this microsecond.
    fn key(&self, at: Micros, number: u64) -> Key
        ensures { (s : Space) → result ≡ key_of (bus_with self.now s at.0) number }
    {
        Key {
            at,
            board: self.numbers.number,
            number: PostNo(number),
        }
    }

    fn post(&self, at: Micros, dev: u8, payload: &Payload) -> Post
        ensures { (s : Space) → result ≡ post_of (bus_with self.now s at.0) dev payload.now }
    {
        Post {
            key: self.key(at, self.numbers.posted),
            from: Member {
                board: self.numbers.number,
                dev,
            },
            payload: *payload,
        }
    }

    fn entry(&self, at: Micros, what: What) -> Entry
        ensures { (s : Space) → result ≡ entry_of (bus_with self.now s at.0) what }
    {
        Entry {
            key: self.key(at, self.numbers.entered),
            what,
        }
    }

    /// Whether there is room for one more post and one more entry.
    pub fn has_room(&self) -> bool
        ensures { IsTrue result ↔ HasRoom self.now }
    {
        self.posts.len() < self.posts.capacity() && self.entries.len() < self.entries.capacity()
    }

    /// Notes something for the log.
    pub fn enter(&mut self, at: Micros, what: What) -> Result<(), NoMemory>
        ensures ok { OnOk result ((s : Space) →
            bus_with self.new s at.0 ≡ entered (bus_with self.old s at.0) what) }
        ensures err { OnErr result ((s : Space) → bus_with self.new s at.0 ≡ bus_with self.old s at.0) }
    {
        let entry = self.entry(at, what);
        if self.entries.push(entry).is_err() {
            return Err(NoMemory);
        }
        self.numbers.count_entry();
        Ok(())
    }

    /// Notes a payload that a device sends which is shown or not. There is room for an entry.
    #[inline(always)]
    fn note(&mut self, at: Micros, dev: u8, payload: &Payload, shown: bool)
        requires { vec_len self.old.entries < vec_capacity self.old.entries }
        ensures { (s : Space) → bus_with self.new s at.0
            ≡ entered_if (bus_with self.old s at.0) (note_if shown dev payload.now) }
    {
        if let Some(what) = note_if(shown, dev, payload) {
            let entry = self.entry(at, what);
            self.entries.push_reserved(entry);
            self.numbers.count_entry();
        }
    }

    /// Makes a post of a payload that a device sends, and notes it where the device is shown. There
    /// is room for both.
    #[inline(always)]
    pub fn send(&mut self, at: Micros, dev: u8, payload: &Payload, shown: bool)
        requires { HasRoom self.old }
        ensures { (s : Space) → bus_with self.new s at.0
            ≡ entered_if (posted (bus_with self.old s at.0) dev payload.now) (note_if shown dev payload.now) }
    {
        let post = self.post(at, dev, payload);
        self.posts.push_back_reserved(post);
        self.numbers.count_post();
        self.note(at, dev, payload, shown);
    }

    /// Makes room for one more post and one more entry.
    pub fn make_room(&mut self) -> Result<(), NoMemory>
        ensures room { OnOk result (HasRoom self.new) }
        ensures same { (s : Space) (t : ℕ) → bus_with self.new s t ≡ bus_with self.old s t }
    {
        if self.entries.reserve(1).is_err() || self.posts.reserve(1).is_err() {
            return Err(NoMemory);
        }
        Ok(())
    }
}

/// What the log notes of a payload that a device sends which is shown or not.
fn note_if(shown: bool, dev: u8, payload: &Payload) -> Option<What>
    ensures { result ≡ note_if shown dev payload.now }
{
    if !shown {
        return None;
    }
    match payload {
        Payload::Byte(value) => Some(What::Byte { dev, value: *value }),
        Payload::Frame(frame) => Some(What::Sent { dev, frame: *frame }),
        Payload::Finish(_) => None,
    }
}
