//! What is left of what a board lists: all that the record doesn't name.
ghost use Rattle.std.specs.Prelude.{◌≡◌, ◌++◌, ◌∷◌, [], not, IfOk, OnOk};
ghost use Rattle.ls_naming.specs.Named.{only_if, NamesKey, NamesEnrolled};
ghost use Rattle.ls_sweep.specs.Sifted.{AreThose};

use ls_bytes::{IdList, Memory};
use ls_naming::{names_enrolled, names_key};
use ls_record::Record;
use std::alloc::Global;

/// Adds an id at the end, where it isn't named.
fn push_unnamed(left: &mut IdList, is_named: bool, id: u64) -> Result<(), Memory>
    ensures pushed { OnOk result (left.new ≡ left.old ++ only_if (not is_named) (id ∷ [])) }
{
    if !is_named {
        left.push(id)?;
    }
    Ok(())
}

/// Those of these aliases of keys that the record doesn't name.
pub fn unnamed_keys(alloc: Global, holder: &Record, aliases: &[u64]) -> Result<IdList, Memory>
    ensures those { IfOk result (AreThose (λ alias. ¬ NamesKey holder.now alias) aliases.now) }
{
    let mut left = IdList::new(alloc);
    for alias in aliases {
        push_unnamed(&mut left, names_key(holder, *alias), *alias)?;
    }
    Ok(left)
}

/// Those of these ids of Gatekeeper records that the record doesn't name, on a board with Weaver
/// or on one without it.
pub fn unnamed_enrolled(
    alloc: Global,
    holder: &Record,
    weaver: bool,
    ids: &[u64],
) -> Result<IdList, Memory>
    ensures those { IfOk result (AreThose (λ id. ¬ NamesEnrolled weaver holder.now id) ids.now) }
{
    let mut left = IdList::new(alloc);
    for id in ids {
        push_unnamed(&mut left, names_enrolled(holder, weaver, *id), *id)?;
    }
    Ok(left)
}
