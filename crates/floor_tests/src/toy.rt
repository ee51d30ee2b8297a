//! A job of the tests: a list with a post or none for each slot.
ghost use Rattle.std.specs.Prelude.{◌≡◌, ◌+◌, ◌<◌, ◌++◌, [], take, drop, vec_len, OnOk, OnErr};
ghost use Rattle.std.specs.Prelude.{option_to_list};
ghost use Rattle.floor_core.specs.Job.{posts};

use crate::gates::Turnstile;
use dev_core::Post;
use floor_core::{Job, Turn};
use lab_num::NoMemory;
use std::alloc::Global;
use std::sync::{Arc, Wait};
use std::thread::Threads;

/// The slots, the number of those that are taken, and the posts of these that are not sent.
#[derive(Drop)]
pub struct Toy {
    slots: Vec<Option<Post>>,
    at: usize,
    unsent: Vec<Post>,
    sent: Vec<Post>,
    /// Is told when a turn begins.
    gate: Option<Arc<Turnstile, Global>>,
}

/// Puts a post, if there is one, after the others.
fn add(posts: &mut Vec<Post>, next: Option<Post>) -> Result<(), NoMemory>
    ensures added { OnOk result (posts.new.items ≡ posts.old.items ++ option_to_list next) }
    ensures same { OnErr result (posts.new.items ≡ posts.old.items) }
{
    if let Some(post) = next {
        posts.extend_from_slice(&[post])?;
    }
    Ok(())
}

impl Toy {
    pub fn new(alloc: Global, slots: Vec<Option<Post>>) -> Toy
        ensures { result.unsent.items ≡ [] }
    {
        Toy {
            slots,
            at: 0,
            unsent: Vec::new(alloc),
            sent: Vec::new(alloc),
            gate: None,
        }
    }

    /// The toy, which tells the gate when a turn begins.
    pub fn behind(mut self, gate: Arc<Turnstile, Global>) -> Toy
        ensures { result.unsent ≡ self.unsent }
    {
        self.gate = Some(gate);
        self
    }

    /// How many slots are taken.
    pub fn taken(&self) -> u64 {
        self.at as u64
    }

    /// What the next slot makes.
    fn coming(&self) -> Option<Post>
        requires { self.now.at < vec_len self.now.slots }
        ensures { option_to_list result ≡ posts (take 1 (drop self.now.at self.now.slots.items)) }
    {
        self.slots[self.at]
    }

    /// Takes one slot.
    fn slot(&mut self) -> Result<(), NoMemory>
        requires { self.old.at < vec_len self.old.slots }
        ensures slots { self.new.slots ≡ self.old.slots }
        ensures sent { self.new.sent ≡ self.old.sent }
        ensures at { OnOk result (self.new.at ≡ self.old.at + 1) }
        ensures unsent { OnOk result (self.new.unsent.items ≡
            self.old.unsent.items ++ posts (take 1 (drop self.old.at self.old.slots.items))) }
        ensures same { OnErr result
            ((self.new.at ≡ self.old.at) × (self.new.unsent.items ≡ self.old.unsent.items)) }
    {
        let next = self.coming();
        add(&mut self.unsent, next)?;
        self.at += 1;
        Ok(())
    }
}

impl Job for Toy {
    ghost use Rattle.std.specs.Prelude.{◌+◌, drop};
    ghost use Rattle.std.proofs.Common.{add_assoc, add-zero};

    type State = usize;

    ghost meaning = { λ t. record { state = t.at; coming = drop t.at t.slots.items; unsent = t.unsent.items } };

    ghost sent = { λ t. t.sent.items };

    ghost state_after = { λ at _ n. at + n };

    fn left(&self) -> u64 {
        self.slots.len().saturating_sub(self.at) as u64
    }

    fn turn(&mut self, limit: u64) -> Turn {
        if let Some(gate) = &self.gate {
            gate.begin_turn();
        }
        let n = limit.min(self.left());
        for i in 0..n {
            let Ok(()) = self.slot() else {
                return Turn::Starved(i);
            };
        }
        Turn::Used(n)
    }

    fn next_post(&self) -> Option<Post> {
        self.unsent.first().copied()
    }

    fn drop_post(&mut self) {
        self.unsent.remove(0);
    }

    fn send_out<R: Threads + Wait + Copy + Send + Sync>(&mut self, _rt: &R) -> bool {
        self.sent.append(&mut self.unsent).is_ok()
    }

    ghost adds = { λ s l a b _. add_assoc s a b };

    ghost rests = { λ s l. add-zero s };
}
