//! The numbers that are chosen for a new protector, and the secure id.
ghost use Rattle.std.specs.Prelude.{◌≡◌, ◌≢◌, ◌≤◌, ◌<◌, ◌+◌, ◌^◌, ◌&&◌, ℕ, List, not, true, map, length, IfOk};
ghost use Rattle.std.specs.List.{Contains};
ghost use Rattle.ls_credential.specs.Rules.{KindAndText};
ghost use Rattle.ls_record.specs.declared.row.UserRow.{UserRow as UserRows};
ghost use Rattle.ls_record.specs.Rows.{is_protector_id};
ghost use Rattle.ls_placing.specs.Placing.{AreTakenIds, IsFreeSlot, ids_of, slots_of};
ghost use Rattle.ls_turn.specs.Agreeing.{retired_files};
ghost use Rattle.ls_vault.specs.Kinds.{is_empty};
ghost use Rattle.ls_changing.specs.Planning.{secure_for};

use byteorder::{BigEndian, ByteOrder};
use ls_bytes::{IdList, Memory, SlotList};
use ls_credential::Kind;
use ls_placing::{free_slot, protector_id, taken_ids, taken_slots};
use ls_record::UserRow;
use ls_sweep::fresh_token_id;
use ls_turn::Session;
use std::alloc::Global;

pub(crate) fn is_empty(kind: Kind) -> bool
    ensures same { result ≡ is_empty kind }
{
    matches!(kind, Kind::Empty)
}

/// Whether a credential replaces none.
pub(crate) fn is_first(old: Kind, new: Kind) -> bool
    ensures same { result ≡ (is_empty old && not (is_empty new)) }
{
    is_empty(old) && !is_empty(new)
}

/// The secure ids of rows.
fn secure_ids(alloc: Global, rows: &[UserRow]) -> Result<IdList, Memory>
    ensures same { IfOk result (λ ids. ids ≡ map (λ row. row.secure) rows.now) }
{
    let mut ids = IdList::new(alloc);
    for row in rows {
        ids.push(row.secure)?;
    }
    Ok(ids)
}

/// The ids, the slots and the secure ids that can't be had.
#[derive(Drop)]
pub(crate) struct Taken {
    pub(crate) ids: IdList,
    pub(crate) slots: SlotList,
    pub(crate) secures: IdList,
}

/// Those that the session knows of.
pub(crate) fn taken_by(x: &Session) -> Result<Taken, Memory>
    ensures ids { IfOk result (λ taken.
        AreTakenIds (retired_files x.now) (ids_of x.now.named.items) taken.ids) }
    ensures slots { IfOk result (λ taken. taken.slots ≡ slots_of x.now.named.items) }
    ensures secures { IfOk result (λ taken.
        taken.secures ≡ map (λ row. row.secure) x.now.settings.settled.rec.users) }
{
    let ids = taken_ids(x.alloc, &x.named, &x.retired)?;
    let slots = taken_slots(x.alloc, &x.named)?;
    let secures = secure_ids(x.alloc, x.settings.record().users.as_slice())?;
    Ok(Taken {
        ids,
        slots,
        secures,
    })
}

/// The secure id beside a credential of this kind, by the number in the first eight drawn bytes.
fn secure_by(row: &UserRow, kind: Kind, drawn: &[u8], taken: &[u64]) -> u64
    requires drawn { 8 ≤ length drawn.now }
    ensures same { (rows : List UserRows) (c : KindAndText) → c.kind ≡ kind
        → taken.now ≡ map (λ r. r.secure) rows → result ≡ secure_for rows row.now c drawn.now }
{
    if is_empty(kind) {
        0
    } else if is_first(row.kind, kind) {
        fresh_token_id(BigEndian::read_u64(drawn), taken)
    } else {
        row.secure
    }
}

/// The id and the slot of a new protector, and the secure id.
#[derive(Clone, Copy)]
pub(crate) struct Numbers {
    pub(crate) id: u64,
    pub(crate) slot: Option<u32>,
    pub(crate) secure: u64,
}

/// Chooses them. The eight bytes for the id stand at a place in the drawn bytes.
pub(crate) fn choose(
    slots: u32,
    row: &UserRow,
    kind: Kind,
    drawn: &[u8],
    at: usize,
    taken: &Taken,
) -> Numbers
    requires drawn { at + 8 ≤ length drawn.now }
    requires room { slots ≢ 0 → length taken.now.slots < slots }
    ensures id { is_protector_id result.id ≡ true }
    ensures sizes { (result.id < 2 ^ 64) × (result.secure < 2 ^ 64) }
    ensures other { (id : ℕ) → Contains taken.now.ids id → id ≢ result.id }
    ensures slot { IsFreeSlot slots taken.now.slots result.slot }
    ensures secure { (rows : List UserRows) (c : KindAndText) → c.kind ≡ kind
        → taken.now.secures ≡ map (λ r. r.secure) rows
        → result.secure ≡ secure_for rows row.now c drawn.now }
{
    Numbers {
        id: protector_id(&drawn[at..], &taken.ids),
        slot: free_slot(slots, &taken.slots),
        secure: secure_by(row, kind, drawn, taken.secures.as_slice()),
    }
}
