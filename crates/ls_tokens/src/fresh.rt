//! An id that no token has.
ghost use Rattle.std.specs.Prelude.{◌≡◌, ◌≤◌, ◌++◌, true, false, length, IfOk, OnOk};
ghost use Rattle.ls_arming.specs.Numbers.{contains};
ghost use Rattle.ls_record.specs.Rows.{is_odd};
ghost use Rattle.ls_tokens.specs.Adding.{taken_ids};
ghost use Rattle.ls_vault.specs.Fresh.{fresh, drawn_number};

use byteorder::{BigEndian, ByteOrder};
use ls_bytes::{IdList, Memory};
use ls_sweep::fresh_token_id;
use ls_turn::Session;

/// Adds ids at the end.
fn add_ids(ids: &mut IdList, more: &[u64]) -> Result<(), Memory>
    ensures same { OnOk result (ids.new ≡ ids.old ++ more.now) }
{
    for id in more {
        ids.push(*id)?;
    }
    Ok(())
}

/// The ids of all tokens, active and pending.
pub(crate) fn taken_ids(x: &Session) -> Result<IdList, Memory>
    ensures same { IfOk result (λ ids. ids ≡ taken_ids x.now) }
{
    let mut ids = IdList::new(x.alloc);
    for row in x.settings.record().users.as_slice() {
        add_ids(&mut ids, row.tokens.as_slice())?;
    }
    for p in &x.pending {
        ids.push(p.id)?;
    }
    Ok(ids)
}

/// The id that these drawn bytes give where those are taken.
pub(crate) fn id_by(drawn: &[u8], taken: &[u64]) -> u64
    requires { 8 ≤ length drawn.now }
    ensures same { result ≡ fresh (drawn_number drawn.now) taken.now }
    ensures odd { is_odd result ≡ true }
    ensures free { contains taken.now result ≡ false }
{
    fresh_token_id(BigEndian::read_u64(drawn), taken)
}
