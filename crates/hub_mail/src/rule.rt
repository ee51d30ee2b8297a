//! The rule of the mailbox, and what each step on its queue does to the view of the seat that takes
//! it. The types here only name these; no value of them is made.
ghost use Rattle.std.specs.Prelude.{◌≡◌, ℕ};

use crate::view::View;
use crossbeam_queue::protocol::{Join, Lesson, Outcome, Protocol, Split};
use crossbeam_queue::{RuledSegQueue, SegPass};
use dev_core::Post;

pub type Queue = RuledSegQueue<Post, View, InOrder>;

pub type Seat = SegPass<Post, View>;

/// The rule, which every step keeps.
pub struct InOrder;

impl Protocol<Post, View> for InOrder {
    ghost use Rattle.hub_mail.specs.Inner.Mailbox.{Mailbox};
    ghost use Rattle.hub_mail.specs.Inner.Steps.{first};

    ghost holds = { Mailbox };

    ghost first = { first };
}

/// A new pass, with the next number.
pub struct NextPass;

impl Split<View> for NextPass {
    ghost use Rattle.hub_mail.specs.Inner.Steps.{one_more, next_pass};

    ghost left = { one_more };

    ghost right = { next_pass };
}

/// A pass that is taken in.
pub struct TakenIn;

impl Join<View> for TakenIn {
    ghost use Rattle.hub_mail.specs.Inner.Steps.{with_pass, spent};

    ghost both = { with_pass };

    ghost spent = { spent };
}

/// A post that is pushed.
pub struct Posted;

impl Outcome<Post, View> for Posted {
    ghost use Rattle.std.specs.Prelude.{◌≡◌};
    ghost use Rattle.hub_mail.specs.Inner.Steps.{with_post};

    ghost then = { λ v x w. w ≡ with_post v x };
}

/// A post that is popped, or the end of the drain.
pub struct Drawn;

impl Outcome<Post, View> for Drawn {
    ghost use Rattle.std.specs.Prelude.{◌≡◌};
    ghost use Rattle.hub_mail.specs.Inner.Steps.{with_drawn};

    ghost then = { λ v x w. w ≡ with_drawn v x };
}

impl Lesson<Post, View> for Drawn {
    ghost use Rattle.hub_mail.specs.Inner.Mailbox.{Told};

    ghost fact = { Told };
}
