//! Laws of scripts. The functions here do nothing when they run: a proof that needs a law calls it.
ghost use Rattle.std.specs.Prelude.{◌≡◌, ℕ, true, List, ◌++◌, length, Ok};
ghost use Rattle.std.specs.List.{list_all};
ghost use Rattle.lab_num.specs.Returns.{is_no_return, with_returns};
ghost use Rattle.resc_vars.specs.Behind.{ClosesMacros, EndsLine, IfGives, items_behind, main_file};
ghost use Rattle.resc_vars.specs.Behind.{next_behind, opened_behind, with_behind};
ghost use Rattle.resc_vars.specs.Bodies.{begun, enter, run_of, source_of};
ghost use Rattle.resc_vars.specs.Coming.{AreNextAlike, AreOpenedAlike, MeansSame, TakesMore};
ghost use Rattle.resc_vars.specs.Coming.{coming, things_in};
ghost use Rattle.resc_vars.specs.Script.{State, next_of};

use lab_num::return_law as lines_return_law;

/// A text without carriage returns has the lines that it has with one before each line feed.
pub fn return_law()
    ensures { (file text : List ℕ) →
        list_all is_no_return text ≡ true → source_of file (with_returns text) ≡ source_of file text }
{
    lines_return_law();
}

/// A script with more lines behind goes on as without them until it ends, and then with them. Its
/// first lines end with a line feed and close their macros; what stands behind a body that is open
/// stands behind it still when others are opened within it.
pub fn lines_behind_come_last()
    ensures begun { (file text more : List ℕ) → EndsLine text → ClosesMacros text →
        begun (source_of file (text ++ more)) ≡ with_behind (items_behind text more) (begun (source_of file text)) }
    ensures next { (text more : List ℕ) (s : State) →
        next_of (with_behind (items_behind text more) s)
        ≡ next_behind (main_file s) (items_behind text more) (next_of s) }
    ensures included { (text more file bytes : List ℕ) (s : State) →
        enter (with_behind (items_behind text more) s) (source_of file bytes)
        ≡ opened_behind (items_behind text more) (enter s (source_of file bytes)) }
    ensures macro_ { (text more name : List ℕ) (s : State) →
        run_of (with_behind (items_behind text more) s) name
        ≡ opened_behind (items_behind text more) (run_of s name) }
    ensures depth { (text more : List ℕ) (s : State) →
        length (with_behind (items_behind text more) s).outer ≡ length s.outer }
{}

/// What comes next in a script depends on what is to come in it, its variables and its macros,
/// wherever the lines stand, but for the count of commands; so does what is to come in a body that is
/// opened, but for the count of open bodies.
pub fn places_change_no_line()
    ensures next { (flow other : State) → MeansSame flow other →
        AreNextAlike (next_of flow) (next_of other) }
    ensures included { (flow other : State) (file text : List ℕ) → MeansSame flow other →
        AreOpenedAlike (enter flow (source_of file text)) (enter other (source_of file text)) }
    ensures macro_ { (flow other : State) (name : List ℕ) → MeansSame flow other →
        AreOpenedAlike (run_of flow name) (run_of other name) }
{}

/// The lines of a body that is opened are to come before those that were to come, and what is to come
/// in a text that ends with a line feed and closes its macros, before what is to come in the lines
/// behind it.
pub fn lines_come_in_order()
    ensures included { (flow after : State) (file text : List ℕ) →
        enter flow (source_of file text) ≡ Ok after → coming after ≡ things_in text ++ coming flow }
    ensures behind { (text more : List ℕ) → EndsLine text → ClosesMacros text →
        things_in (text ++ more) ≡ things_in text ++ things_in more }
{}

/// What a line leaves of the script: a count of commands that is higher, up to 100,000, and its own
/// body around all others. A body that is opened leaves both, and the variables and the macros.
pub fn lines_leave_the_script()
    ensures counted { (s : State) → TakesMore s.kept.taken (next_of s) }
    ensures main { (s : State) → IfGives (next_of s) (λ after. main_file after ≡ main_file s) }
    ensures included { (s after : State) (file text : List ℕ) → enter s (source_of file text) ≡ Ok after →
        (after.kept ≡ s.kept) × (main_file after ≡ main_file s) }
    ensures macro_ { (s after : State) (name : List ℕ) → run_of s name ≡ Ok after →
        (after.kept ≡ s.kept) × (main_file after ≡ main_file s) }
{}
