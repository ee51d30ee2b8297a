//! What the bytes of a snapshot hold.
ghost use Rattle.std.specs.Prelude.{◌≡◌, ℕ, List, Some};
ghost use Rattle.log_text.specs.declared.line.OpenLine.{OpenLine as Line};
ghost use Rattle.lab_encoding.specs.Form.{IsBytes};
ghost use Rattle.lab_state.specs.Lab.{Lab as Laboratory};
ghost use Rattle.lab_state.specs.Valid.{IsValid};
ghost use Rattle.lab_snap.specs.Saved.{IsSpellable, spelling};
ghost use Rattle.lab_snap.specs.Snapshot.{snapshot_of};

use crate::loading::saving_agrees;

/// What bytes hold is valid and spelled so (`found`), and what is valid and spelled so is what its
/// spelling holds (`only`). So bytes hold a laboratory exactly where they are the spelling of a valid
/// one, with its open lines, and they hold no other. This function does nothing when it runs: a proof
/// that needs the law calls it.
pub fn snapshots_are_what_they_spell()
    ensures found { (bytes : List ℕ) (l : Laboratory) (ls : List Line) → IsBytes bytes →
        snapshot_of bytes ≡ Some (l, ls) → IsValid l ls × IsSpellable l ls × (bytes ≡ spelling l ls) }
    ensures only { (l : Laboratory) (ls : List Line) → IsValid l ls → IsSpellable l ls →
        snapshot_of (spelling l ls) ≡ Some (l, ls) }
{
    saving_agrees();
}
