//! What the load of an image leaves.
ghost use Rattle.std.specs.Prelude.{◌≡◌, ℕ, List, length, map, true};
ghost use Rattle.std.specs.List.{list_all};
ghost use Rattle.std.specs.Option.{option_or};
ghost use Rattle.board.specs.View.{View};
ghost use Rattle.elf_load.specs.declared.image.Part.{Part};
ghost use Rattle.elf_load.specs.Map.{byte_at};
ghost use Rattle.sys_bus.specs.Plan.{IsValid};
ghost use Rattle.monitor.specs.Images.{byte_held, holds_part, unreserved, with_parts};

/// To load the parts of an image is to load the map from addresses to bytes that they make, in
/// which the later part counts: each address that it has holds its byte, and each other one what it
/// held, on a board of a valid plan whose memories have the plan's sizes. Of the board only
/// memories change, and all reservations end.
pub fn an_image_is_loaded_as_its_map()
    ensures bytes { (v : View) (parts : List Part) (address : ℕ) → IsValid v.space.plan →
        map length v.space.memories ≡ v.space.plan.memories →
        list_all (holds_part v) parts ≡ true →
        byte_held (with_parts v parts) address
        ≡ option_or (byte_at parts address) (byte_held v address) }
    ensures others { (v : View) (parts : List Part) →
        with_parts v parts ≡ record (unreserved v) {
          space = record v.space { memories = (with_parts v parts).space.memories };
        } }
{}
