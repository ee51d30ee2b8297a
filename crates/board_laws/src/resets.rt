//! What a reset depends on.
ghost use Rattle.std.specs.Prelude.{◌≡◌};
ghost use Rattle.board.specs.New.{reset};
ghost use Rattle.board.specs.View.{View};
ghost use Rattle.board_laws.specs.Kept.{IsSameKept};

/// What a reset leaves depends on nothing that the processor and the devices had come to.
pub fn resets_agree()
    ensures { (v w : View) → IsSameKept v w → reset v ≡ reset w }
{}
