//! Which file of a user or a protector a name names.

use crate::part::FilePart;
use std::marker::Model;

/// A file of a user or of one of its protectors. The id is 0 exactly for a part of a user.
#[derive(Clone, Copy, Debug, PartialEq, Eq)]
pub struct PartName {
    pub user: u32,
    pub id: u64,
    pub part: FilePart,
}

impl Model for PartName {
    ghost use Rattle.ls_formats.specs.PartNames.{PartOf, IsPartOf};

    ghost Value = { PartOf };

    ghost view = { λ n. record { user = n.user; id = n.id; part = n.part } };

    ghost invariant = { λ n. IsPartOf (record { user = n.user; id = n.id; part = n.part }) };

    ghost inverse = { λ v. record { user = v.user; id = v.id; part = v.part } };
}
