//! The protectors that a session keeps.
ghost use Rattle.std.specs.Prelude.{◌≡◌};
ghost use Rattle.std.specs.List.{Contains};
ghost use Rattle.ls_formats.specs.declared.parts.Parts.{Parts as PartsOf};

use ls_formats::Parts;
use ls_protector::Named;

/// The parts of the protector of this id, which is one of these.
pub(crate) fn parts_of(named: &[Named], id: u64) -> &Parts
    requires there { (p : PartsOf) × Contains named.now p × (p.id ≡ id) }
    ensures kept { Contains named.now result.now }
    ensures id { result.now.id ≡ id }
{
    match named.iter().find(|n| n.parts().id == id) {
        Some(n) => n.parts(),
        None => unreachable!(),
    }
}
