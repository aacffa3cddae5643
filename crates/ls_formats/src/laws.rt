//! Laws of names, with no code.
ghost use Rattle.std.specs.Prelude.{◌≡◌};
ghost use Rattle.ls_formats.specs.FileNames.{IsFileName, name_text};
ghost use Rattle.ls_formats.specs.declared.name.FileName.{FileName as FileNames};

/// Two names with one spelling are one name.
pub fn names_are_apart()
    ensures { (m n : FileNames) → IsFileName m → IsFileName n → name_text m ≡ name_text n → m ≡ n }
{}
