//! A board of one processor.
ghost use Rattle.std.specs.Prelude.{◌≡◌, ℕ, false, [], ◌∷◌, Option};
ghost use Rattle.rv_hart.specs.Core.{Core};
ghost use Rattle.rv_hart.specs.declared.csr.Lines.{Lines};
ghost use Rattle.rv_exec.specs.Effect.{effect};
ghost use Rattle.rv_atomic.specs.AtomicEffect.{leaves};
ghost use Rattle.board.specs.Fetch.{effect_on, fetched_by};
ghost use Rattle.board.specs.HartView.{HartView};
ghost use Rattle.board.specs.Slot.{slot};
ghost use Rattle.board.specs.View.{View};
ghost use Rattle.board.specs.HartBus.{HartBus};
ghost use Rattle.board_laws.specs.Alone.{alone_slot};

use rv_atomic::laws;
/// A slot of a board of one processor without atomic instructions is the slot of a board on which
/// nothing is asked of turns and reservations: each instruction does what it does on a hart alone,
/// reservations stay, and the one processor takes every slot.
pub fn one_hart_goes_on_alone()
    ensures effect { (v : HartView) (w : HartBus) (lines : Lines) (word : Option ℕ) →
        v.core.letters.a ≡ false → v.hart ≡ 0 → v.watch ≡ word ∷ [] →
        effect_on v w lines ≡ leaves (effect v.core (fetched_by v.core w) lines) v.watch }
    ensures turn { (v : View) (t : ℕ) (core : Core) → v.cores ≡ core ∷ [] → v.next ≡ 0 →
        (slot v t).view.next ≡ 0 }
    ensures slot { (v : View) (t : ℕ) (core : Core) (word : Option ℕ) →
        v.cores ≡ core ∷ [] → v.next ≡ 0 → v.watch ≡ word ∷ [] → core.letters.a ≡ false →
        slot v t ≡ alone_slot v core t }
{
    laws::alone_as_performed();
}
