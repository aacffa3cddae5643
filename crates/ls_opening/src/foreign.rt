//! A file at fault.

use ls_formats::PartName;
use std::marker::Model;

/// A file that a record names, and the first place in it, from 0, that is at fault.
#[derive(Drop)]
pub struct Foreign {
    pub name: PartName,
    pub at: u32,
}

impl Model for Foreign {
    ghost use Rattle.ls_formats.specs.PartNames.{part_name_text};
    ghost use Rattle.ls_naming.specs.Current.{Foreign as ForeignAt};

    ghost Value = { ForeignAt };

    ghost view = { λ f. record { name = part_name_text f.name; at = f.at } };
}
