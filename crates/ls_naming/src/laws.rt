//! What is so of all records and files, with no code.
ghost use Rattle.std.specs.Prelude.{◌≡◌, ◌+◌, ◌++◌, ◌∷◌, [], Bool, ℕ, List, length};
ghost use Rattle.std.specs.List.{AllByRecursion};
ghost use Rattle.ls_formats.specs.PartNames.{PartOf, IsPartOf, part_name_text, settings_text};
ghost use Rattle.ls_formats.specs.declared.side.Side.TheVariants.{First, Second};
ghost use Rattle.ls_record.specs.Rows.{Rec, IsRecord};
ghost use Rattle.ls_naming.specs.Named.{Files, NamesFile, NamesSlot};
ghost use Rattle.ls_naming.specs.Current.{current, entry_places, journal_start, end_behind};
ghost use Rattle.ls_naming.specs.Current.{SameEntries, OpensEntry, SameChange};
ghost use Rattle.ls_naming.specs.Current.{format_of, changed_by, and_then};

/// Each file that a record names has a name.
pub fn named_files_have_names()
    ensures { (weaver : Bool) (r : Rec) → IsRecord r → (name : PartOf) → NamesFile weaver r name →
        IsPartOf name }
{}

/// Which slots a record names depends on the files that it names alone.
pub fn named_slots_follow_files()
    ensures { (weaver : Bool) (r : Rec) (old new : Files)
        → ((name : PartOf) → NamesFile weaver r name →
        new (part_name_text name) ≡ old (part_name_text name))
        → (slot : ℕ) → NamesSlot weaver r old slot → NamesSlot weaver r new slot }
{}

/// The current settings depend on the two settings files alone.
pub fn settings_follow_two_files()
    ensures { (old new : Files)
        → new (settings_text First) ≡ old (settings_text First)
        → new (settings_text Second) ≡ old (settings_text Second)
        → current new ≡ current old }
{}

/// Which entries of a journal count depends on gates and length words alone.
pub fn entries_follow_gates()
    ensures { (old new : List ℕ) → SameEntries old new → entry_places new ≡ entry_places old }
{}

/// A gate that is opened behind the last entry adds one entry.
pub fn an_opened_entry_counts()
    ensures { (old new : List ℕ) → OpensEntry old new → entry_places new ≡
        entry_places old ++ end_behind old (journal_start old) (entry_places old) ∷ [] }
{}

/// The entries of a journal change its record one after another, and a change is what its bytes
/// say.
pub fn entries_change_in_order()
    ensures joined { (bytes places more : List ℕ) (sequence : ℕ) (r : Rec)
        → changed_by bytes (places ++ more) sequence r ≡
        and_then (changed_by bytes places sequence r)
        (changed_by bytes more (sequence + length places)) }
    ensures same { (old new places : List ℕ) → format_of new ≡ format_of old
        → AllByRecursion (SameChange old new) places → (sequence : ℕ) (r : Rec)
        → changed_by new places sequence r ≡ changed_by old places sequence r }
{}
