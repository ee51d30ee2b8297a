//! A mail, its boss and its passes.
ghost use Rattle.std.specs.Prelude.{◌≡◌, ℕ, ◌+◌, ◌≤◌, [], ◌∷◌, ◌++◌, length, flat_map, IfOk, IfErr};
ghost use Rattle.std.specs.List.Sorted.{IsPermutation};
ghost use Rattle.lab_num.specs.Key.{KeysDiffer};
ghost use Rattle.dev_core.specs.Post.{post_key};
ghost use Rattle.hub_mail.specs.Boss.{posted_by, sent_by};
ghost use Rattle.hub_mail.specs.Pass.{fresh, fresh_passes};
ghost use Rattle.hub_mail.specs.Posts.{IsAbove, of_board};

use crate::rule::{Drawn, NextPass, Posted, Queue, Seat, TakenIn};
use dev_core::Post;
use lab_num::NoMemory;
use std::alloc::Global;
use std::marker::Model;
use std::sync::{Arc, Wait};

/// The queue of a mail. Its last owner frees it, with the posts that are still in it.
struct Shared {
    queue: Queue,
}

impl Drop for Shared {
    fn drop(self) {
        let Self { queue } = self;
        queue.destroy();
    }
}

/// The right of one board to post. It may go from thread to thread, and may be dropped anywhere.
#[derive(Drop)]
pub struct Pass {
    shared: Arc<Shared, Global>,
    seat: Seat,
}

impl Model for Pass {
    ghost use Rattle.std.specs.Prelude.{◌≡◌};
    ghost use Rattle.std.specs.Arc.{arc_value};
    ghost use Rattle.crossbeam_queue.specs.SegTies.{IsSegPassOf};
    ghost use Rattle.hub_mail.specs.Inner.Seen.{IsSender, pass_of};
    ghost use Rattle.hub_mail.specs.Pass.{Pass};

    ghost Value = { Pass };

    ghost view = { λ p. pass_of (arc_value p.shared).queue p.seat.me.view.client };

    ghost invariant = { λ p. IsSegPassOf (arc_value p.shared).queue p.seat × IsSender p.seat.me.view.client };
}

impl Pass {
    /// Adds the post at the end. Where memory runs out it is handed back, and nothing is added.
    pub fn post<R: Wait>(&mut self, rt: &R, post: Post) -> Result<(), Post>
        requires board { post.key.board.0 ≡ self.old.board }
        requires number { IsAbove post.key.number.0 self.old.posted }
        ensures added { IfOk result (λ _.
            self.new ≡ record self.old { posted = self.old.posted ++ post ∷ [] }) }
        ensures back { IfErr result (λ back. back ≡ post) }
        ensures unchanged { IfErr result (λ _. self.new ≡ self.old) }
    {
        let queue = &self.shared.queue;
        queue.push_as::<Posted, R>(rt, &mut self.seat, post)
    }
}

/// The one that takes the passes of a mail in, and then the posts out.
#[derive(Drop)]
pub struct Boss {
    alloc: Global,
    shared: Arc<Shared, Global>,
    seat: Seat,
}

impl Model for Boss {
    ghost use Rattle.std.specs.Prelude.{◌≡◌};
    ghost use Rattle.std.specs.Arc.{arc_value};
    ghost use Rattle.crossbeam_queue.specs.SegTies.{IsSegPassOf};
    ghost use Rattle.hub_mail.specs.Boss.{Boss};
    ghost use Rattle.hub_mail.specs.Inner.Seen.{IsOwner, boss_of};

    ghost Value = { Boss };

    ghost view = { λ b. boss_of (arc_value b.shared).queue b.seat.me.view.client };

    ghost invariant = { λ b. IsSegPassOf (arc_value b.shared).queue b.seat × IsOwner b.seat.me.view.client };
}

impl Boss {
    /// The boss of a new mail.
    fn begin(alloc: Global) -> Result<Boss, NoMemory>
        ensures count { IfOk result (λ boss. boss.count ≡ 0) }
        ensures taken { IfOk result (λ boss. boss.taken ≡ []) }
    {
        let (queue, seat) = Queue::with_rule(alloc)?;
        let shared = Arc::new(alloc, Shared { queue })?;
        Ok(Boss {
            alloc,
            shared,
            seat,
        })
    }

    /// The pass of the next board.
    fn split(&mut self) -> Result<Pass, NoMemory>
        ensures pass { IfOk result (λ pass. pass ≡ fresh self.old.mail self.old.count) }
        ensures count { IfOk result (λ _. self.new ≡ record self.old { count = self.old.count + 1 }) }
    {
        let shared = Arc::try_clone(&self.shared)?;
        let seat = self.shared.queue.another::<NextPass>(&mut self.seat);
        Ok(Pass { shared, seat })
    }

    /// Takes a pass in, with the list of what it has posted.
    pub fn take_in<R: Wait>(&mut self, _rt: &R, pass: Pass)
        requires mail { pass.mail ≡ self.old.mail }
        ensures { self.new ≡ record self.old { taken = self.old.taken ++ sent_by pass ∷ [] } }
    {
        let Pass { shared: _, seat } = pass;
        self.shared.queue.absorb::<TakenIn>(&mut self.seat, seat);
    }

    /// All posts of all passes, each once, in some order. Those of each board are what its pass has
    /// posted, in order.
    pub fn drain<R: Wait>(self, rt: &R) -> Result<Vec<Post>, NoMemory>
        requires passes { length self.taken ≡ self.count }
        ensures boards { IfOk result (λ posts.
            (board : ℕ) → of_board board posts.items ≡ posted_by board self.taken) }
        ensures all { IfOk result (λ posts.
            IsPermutation posts.items (flat_map (λ sent. sent.posts) self.taken)) }
        ensures keys { IfOk result (λ posts. KeysDiffer post_key posts.items) }
    {
        let Boss {
            alloc,
            shared,
            mut seat,
        } = self;
        let mut posts = Vec::new(alloc);
        for _ in rt.forever() {
            let Some(post) = shared.queue.pop_as::<Drawn, R>(rt, &mut seat) else {
                return Ok(posts);
            };
            posts.push(post)?;
        }
        unreachable!()
    }
}

/// The mail of one round.
pub struct Mail;

impl Mail {
    /// A new mail: its boss, and a pass for each of the boards from 0 up to n.
    pub fn begin<R: Wait>(_rt: &R, alloc: Global, n: u8) -> Result<(Boss, Vec<Pass>), NoMemory>
        requires boards { (1 ≤ n) × (n ≤ 16) }
        ensures count { IfOk result (λ made. made.0.count ≡ n) }
        ensures taken { IfOk result (λ made. made.0.taken ≡ []) }
        ensures passes { IfOk result (λ made. made.1.items ≡ fresh_passes made.0.mail n) }
    {
        let mut boss = Boss::begin(alloc)?;
        let mut passes = Vec::with_capacity(alloc, usize::from(n))?;
        for _ in 0..n {
            passes.push(boss.split()?)?;
        }
        Ok((boss, passes))
    }
}
