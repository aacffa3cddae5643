//! Laws of the definitions, each on a function that does nothing.
ghost use Rattle.std.specs.Prelude.{◌≡◌, ◌<◌, ◌^◌, ◌↔◌, ℕ, List, [], length, map, None, Some};
ghost use Rattle.std.specs.List.{AllByRecursion, Contains, flat_map};
ghost use Rattle.std.specs.Option.{option_and_then};
ghost use Rattle.ls_bytes.specs.Fields.{be64};
ghost use Rattle.ls_bytes.specs.Names.{IsName};
ghost use Rattle.ls_gcm.specs.Gcm.{gcm_open};
ghost use Rattle.ls_board.specs.declared.action.Answer.TheVariants as answer;
ghost use Rattle.ls_board.specs.declared.devices.Counter.{Counter};
ghost use Rattle.ls_board.specs.Effect.{after, file_at};
ghost use Rattle.ls_board.specs.Gatekeeper.{record_at};
ghost use Rattle.ls_board.specs.Keys.{IsOpening, key_at};
ghost use Rattle.ls_board.specs.Listing.{line_of, IsListingOf, AreFieldsOf};
ghost use Rattle.ls_board.specs.declared.action.Action.{Action as Actions};
ghost use Rattle.ls_board.specs.declared.world.World.{World as Worlds};
ghost use Rattle.ls_board.specs.Images.{Leaves, Within, LeavesWithin};
ghost use Rattle.ls_board.specs.Planned.{file_of};
ghost use Rattle.ls_board.specs.Runs.{after_all, PlanImage};
ghost use Rattle.ls_board.specs.Worlds.{InOrder};

/// A world in which no file is touched has itself as its only image. A crash within an action that
/// changes no file leaves there what the action itself may leave: of a device's the world before or
/// after it, of a saying a part of its bytes.
#[tactic(auto, using(crate::proofs::ImageLemmas::only_itself, crate::proofs::ImageLemmas::only_within))]
pub fn untouched_worlds_are_left()
    ensures itself { (w image : Worlds) → InOrder w → w.touched ≡ [] → Leaves w image → image ≡ w }
    ensures within { (w image : Worlds) (a : Actions) → InOrder w → w.touched ≡ []
        → file_of a ≡ None → LeavesWithin w a image → Within w a image }
{}

/// A crash always leaves an image, whatever files are touched: the files as they read.
pub fn a_crash_leaves_an_image()
    ensures as_read { (w : Worlds) → InOrder w → Leaves w (record w { touched = [] }) }
{}

/// No action changes how many slots there are, whole or in part, nor does a plan or a crash.
pub fn there_are_always_as_many_slots()
    ensures after { (w : Worlds) (a : Actions) (count : ℕ)
        → length (after w a count).slots ≡ length w.slots }
    ensures within { (w mid : Worlds) (a : Actions) → Within w a mid
        → length mid.slots ≡ length w.slots }
    ensures left { (w image : Worlds) → Leaves w image → length image.slots ≡ length w.slots }
    ensures plan { (w : Worlds) (plan : List Actions)
        → length (after_all w plan).slots ≡ length w.slots }
    ensures cut { (w image : Worlds) (plan : List Actions) → PlanImage w plan image
        → length image.slots ≡ length w.slots }
{}

/// The key store's answer says what the key of the alias opens the text to.
pub fn an_answer_is_an_opening()
    ensures opened { (keys : List (ℕ × List ℕ)) (alias : ℕ) (sealed out : List ℕ)
        → IsOpening keys alias sealed answer.Bytes out
        → option_and_then (λ key. gcm_open key sealed) (key_at keys alias) ≡ Some out }
    ensures unknown { (keys : List (ℕ × List ℕ)) (alias : ℕ) (sealed out : List ℕ)
        → IsOpening keys alias sealed answer.NoKey out → key_at keys alias ≡ None }
    ensures closed { (keys : List (ℕ × List ℕ)) (alias : ℕ) (sealed out : List ℕ)
        → IsOpening keys alias sealed answer.BadTag out
        → (¬ (key_at keys alias ≡ None))
        × (option_and_then (λ key. gcm_open key sealed) (key_at keys alias) ≡ None) }
{}

/// The bytes of a list are read in one way, as names or numbers of 64 bits: those of the rows.
pub fn lists_are_read_in_one_way()
    ensures names { (files : List (List ℕ × List ℕ)) (names : List (List ℕ)) (out : List ℕ)
        → IsListingOf files out → AllByRecursion IsName names → out ≡ flat_map line_of names
        → names ≡ map (λ file. file.0) files }
    ensures sids { (rows : List (ℕ × Counter)) (numbers out : List ℕ) → AreFieldsOf rows out
        → AllByRecursion (λ number. number < 2 ^ 64) numbers → out ≡ flat_map be64 numbers
        → numbers ≡ map (λ row. row.0) rows }
    ensures aliases { (rows : List (ℕ × List ℕ)) (numbers out : List ℕ) → AreFieldsOf rows out
        → AllByRecursion (λ number. number < 2 ^ 64) numbers → out ≡ flat_map be64 numbers
        → numbers ≡ map (λ row. row.0) rows }
{}

/// What is in a table is what is found there.
pub fn what_is_in_a_table_is_found()
    ensures files { (w : Worlds) (n : List ℕ)
        → Contains (map (λ file. file.0) w.files) n ↔ (¬ (file_at w n ≡ None)) }
    ensures sids { (w : Worlds) (sid : ℕ)
        → Contains (map (λ row. row.0) w.gk) sid ↔ (¬ (record_at w.gk sid ≡ None)) }
    ensures aliases { (w : Worlds) (alias : ℕ)
        → Contains (map (λ row. row.0) w.keys) alias ↔ (¬ (key_at w.keys alias ≡ None)) }
{}
