//! The laws of plans. The functions here do nothing when they run: a proof that needs a law calls
//! the one whose contract it is.
ghost use Rattle.std.specs.Prelude.{◌≡◌, ◌++◌, ◌∷◌, ℕ, List, false, IsTrue, map, slice_get, true};
ghost use Rattle.std.specs.List.{flat_map, list_all};
ghost use Rattle.repl_read.specs.Entries.{is_entry};
ghost use Rattle.repl_read.specs.declared.entry.Entry.{Entry};
ghost use Rattle.repl_read.specs.declared.entry.Head.TheVariants.{Typed, Update};
ghost use Rattle.repl_read.specs.declared.entry.Place.{Place};
ghost use Rattle.repl_read.specs.declared.fault.PlatFault.{PlatFault};
ghost use Rattle.sys_bus.specs.declared.plan.BoardPlan.{BoardPlan};
ghost use Rattle.sys_bus.specs.declared.region.Region.{Region};
ghost use Rattle.sys_bus.specs.Region.{HasByte};
ghost use Rattle.repl_build.specs.Connections.{AreConnected, connections};
ghost use Rattle.repl_build.specs.Laws.{part_of, place_in, processor_name, type_in, typed_name, typed_place};
ghost use Rattle.repl_build.specs.Laws.{typed_type};
ghost use Rattle.repl_build.specs.Names.{are_named, is_typed};
ghost use Rattle.repl_build.specs.Plan.{built};
ghost use Rattle.repl_build.specs.Questions.{IsFirstBroken, is_kept, questions};
ghost use Rattle.repl_build.specs.Updates.{IsWrittenIn, KeepNames, is_updated};

/// In entries as a platform text gives them each name that is given a type has its form.
pub fn entries_of_a_text_are_named()
    ensures { (entries : List Entry) → IsTrue (list_all is_entry entries) → IsTrue (are_named entries) }
{}

/// Entries are refused only where one of the eleven rules is broken: for the first rule that is, at
/// the earliest place. Where there is a plan, each rule is kept at each place.
pub fn the_first_broken_rule_is_told()
    ensures refused { (entries : List Entry) (fault : PlatFault) → built entries ≡ Err fault →
        IsFirstBroken (questions entries) fault }
    ensures given { (entries : List Entry) (plan : BoardPlan) → built entries ≡ Ok plan →
        list_all is_kept (questions entries) ≡ true }
{}

/// Each address belongs to at most one part of a plan.
pub fn an_address_has_one_part()
    ensures { (entries : List Entry) (plan : BoardPlan) → built entries ≡ Ok plan →
        (at i j : ℕ) (one other : Region) →
        slice_get plan.regions i ≡ Some one → HasByte one at →
        slice_get plan.regions j ≡ Some other → HasByte other at → i ≡ j }
{
    sys_bus::laws::an_address_lies_in_one_region();
}

/// The names of a plan are those of the entries with types, in the order of the text, and each stands
/// for a processor or a part of its entry's type. The processors are those of the text, in its order.
/// The regions are those of the named parts, in the same order, and each has the address and the size
/// of its entry.
pub fn each_typed_entry_has_its_part()
    ensures names { (entries : List Entry) (plan : BoardPlan) → built entries ≡ Ok plan →
        map (λ named. named.name) plan.names ≡ flat_map (λ entry. typed_name entry.head) entries }
    ensures types { (entries : List Entry) (plan : BoardPlan) → built entries ≡ Ok plan →
        map (λ named. type_in plan.kinds named.what) plan.names
        ≡ flat_map (λ entry. typed_type entry.head) entries }
    ensures processors { (entries : List Entry) (plan : BoardPlan) → built entries ≡ Ok plan →
        plan.cpus ≡ flat_map (λ entry. processor_name entry.head) entries }
    ensures parts { (entries : List Entry) (plan : BoardPlan) → built entries ≡ Ok plan →
        map (λ region. region.kind) plan.regions ≡ flat_map part_of plan.names }
    ensures places { (entries : List Entry) (plan : BoardPlan) → built entries ≡ Ok plan →
        map place_in plan.regions ≡ flat_map (λ entry. typed_place entries entry entry.head) entries }
{}

/// The wires of a plan are those that the text tells and no others, in the order of the entries with
/// types: those of the items in the entry, and then those of its further items. Each leads from the
/// line of what the one name stands for in the plan to the pin of what the other stands for: to a
/// processor under the number of the one that has the name.
pub fn each_wire_is_one_of_the_text()
    ensures { (entries : List Entry) (plan : BoardPlan) → built entries ≡ Ok plan →
        AreConnected plan.names plan.cpus (connections entries) plan.wires }
{}

/// The first further items of a name count like the same items written in the entry that gives the
/// name its type, where rules 1 and 2 are kept both ways.
pub fn further_items_count_like_own()
    ensures { (front mid back : List Entry) (entry further both : Entry) (name kind : List ℕ) (at : Place) →
        entry.head ≡ Typed name kind at → further.head ≡ Update name → IsWrittenIn entry further both →
        is_typed front name ≡ false → is_typed mid name ≡ false → is_typed back name ≡ false →
        is_updated front name ≡ false → is_updated mid name ≡ false →
        KeepNames (front ++ entry ∷ (mid ++ further ∷ back)) →
        KeepNames (front ++ both ∷ (mid ++ back)) →
        built (front ++ entry ∷ (mid ++ further ∷ back)) ≡ built (front ++ both ∷ (mid ++ back)) }
{}
