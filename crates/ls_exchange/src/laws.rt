//! What a change by protectors does in the simplest cases, with no code.
ghost use Rattle.std.specs.Prelude.{◌≡◌, ◌++◌, ◌∷◌, []};
ghost use Rattle.ls_formats.specs.declared.parts.Parts.{Parts};
ghost use Rattle.ls_protector.specs.Parts.{erasing_of};
ghost use Rattle.ls_protector.specs.Steps.{Drafted, building_of};
ghost use Rattle.ls_exchange.specs.Exchanges.{Exchanged, plain};

/// Without protectors a change is that of its plans; and one protector is built, or erased, as it is
/// alone.
pub fn changes_of_few_protectors()
    ensures none_is_new { (x : Exchanged) → x.drafts ≡ [] → (plain x).before ≡ x.others }
    ensures one_is_new { (x : Exchanged) (draft : Drafted) → x.drafts ≡ draft ∷ []
        → (plain x).before ≡ building_of draft x.others }
    ensures none_goes { (x : Exchanged) → x.retire ≡ [] → (plain x).after ≡ x.after }
    ensures one_goes { (x : Exchanged) (p : Parts) → x.retire ≡ p ∷ []
        → (plain x).after ≡ erasing_of p ++ x.after }
{}
