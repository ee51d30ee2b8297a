//! Up to thirty-two frames in a row of fixed size.
ghost use Rattle.std.specs.Prelude.{◌≡◌, ◌≤◌, ◌<◌, [], ◌∷◌, ◌++◌, length, drop, slice_get};

use crate::frame::Frame;
use std::marker::Model;

/// Up to thirty-two frames, which contracts see as their list.
#[derive(Clone, Copy)]
pub struct FrameRow {
    frames: [Frame; 32],
    count: usize,
}

impl Model for FrameRow {
    ghost use Rattle.std.specs.Prelude.{List};
    ghost use Rattle.dev_core.specs.Frame.{FrameData};

    ghost Value = { List FrameData };

    ghost use Rattle.dev_core.specs.Inner.FrameRow.{frames_of, row_of, IsRow, row_of-frames_of};

    ghost view = { frames_of };

    ghost invariant = { IsRow };

    ghost inverse = { row_of };

    ghost inverse_ok = { row_of-frames_of };
}

impl FrameRow {
    /// No frames.
    pub fn new() -> FrameRow
        ensures { result ≡ [] }
    {
        FrameRow {
            frames: [Frame::new(0, &[]); 32],
            count: 0,
        }
    }

    /// These frames.
    pub fn of(frames: &[Frame]) -> FrameRow
        requires { length frames.now ≤ 32 }
        ensures { result ≡ frames.now }
    {
        let mut row = FrameRow::new();
        for &frame in frames {
            row.push(frame);
        }
        row
    }

    /// The frames in their order.
    pub fn items(&self) -> &[Frame]
        ensures items { result.now ≡ self.now }
        ensures fits { length result.now ≤ 32 }
    {
        &self.frames[..self.count]
    }

    /// Puts a frame at the end.
    pub fn push(&mut self, frame: Frame)
        requires { length self.old < 32 }
        ensures { self.new ≡ self.old ++ frame ∷ [] }
    {
        self.frames[self.count] = frame;
        self.count += 1;
    }

    /// Takes the first frame out, if there is one.
    pub fn pop_first(&mut self) -> Option<Frame>
        ensures first { result ≡ slice_get self.old 0 }
        ensures rest { self.new ≡ drop 1 self.old }
    {
        let (&first, rest) = self.items().split_first()?;
        *self = FrameRow::of(rest);
        Some(first)
    }
}

impl PartialEq for FrameRow {
    ghost use Rattle.std.specs.Cmp.{partial_equiv_from_equiv};
    ghost use Rattle.std.specs.Cmp.Lexicographic.{pointwise, lists_equiv};
    ghost use Rattle.dev_core.specs.Frame.{same_frame};
    ghost use Rattle.dev_core.specs.Inner.SameFrame.{same_frame_equiv};

    ghost eq = { pointwise same_frame };

    ghost laws = { partial_equiv_from_equiv (lists_equiv same_frame_equiv) };

    fn eq(&self, other: &FrameRow) -> bool {
        self.items() == other.items()
    }
}

impl Eq for FrameRow {
    ghost use Rattle.std.specs.Cmp.Lexicographic.{lists_equiv};
    ghost use Rattle.dev_core.specs.Inner.SameFrame.{same_frame_equiv};

    ghost laws = { lists_equiv same_frame_equiv };
}
