//! Whether the length of a user's PIN may be shown.
ghost use Rattle.std.specs.Prelude.{◌≡◌, true, Ok, Err};
ghost use Rattle.ls_board.specs.Acts.{Sight};
ghost use Rattle.ls_record.specs.Rows.{is_shown_length};
ghost use Rattle.ls_script.specs.declared.command.Command.TheVariants as command;
ghost use Rattle.ls_vault.specs.Kinds.{is_pin};
ghost use Rattle.ls_vault.specs.Refusals.{differs};
ghost use Rattle.ls_turn.specs.declared.stop.Stop.TheVariants as stop;
ghost use Rattle.ls_turn.specs.Refusing.{own_refusal, Refuses};
ghost use Rattle.ls_turn.specs.Serving.{CanServe, Serves, turned, Always};
ghost use Rattle.ls_users.specs.Pins.{shown_pin};

use crate::copies::row_with_pin;
use crate::putting::put_row;
use ls_board::Board;
use ls_credential::{Kind, Metrics};
use ls_script::{Refusal, Reply};
use ls_settings::commits_touch_settings_files_alone;
use ls_turn::{Cause, Session, Stop, find_entry, perform};

fn is_pin(kind: Kind) -> bool
    ensures same { result ≡ is_pin kind }
{
    matches!(kind, Kind::Pin)
}

/// Whether a flag is to be another.
fn differs(old: bool, new: bool) -> bool
    ensures same { result ≡ differs old new }
{
    (old && !new) || (new && !old)
}

/// The length that the row of such a credential shows, by what is counted of it: a PIN's of 6
/// digits or more, where it may be shown, and else 0.
fn shown_pin(kind: Kind, on: bool, metrics: &Option<Metrics>) -> u8
    ensures same { result ≡ shown_pin kind on metrics.now }
    ensures rule { is_shown_length kind on result ≡ true }
{
    match metrics {
        None => 0,
        Some(m) => {
            if on && is_pin(kind) && 6 <= m.length {
                m.length
            } else {
                0
            }
        }
    }
}

/// Says whether the length of an opened user's PIN may be shown, and commits the row that shows it
/// so. Where it is so already nothing is done.
pub fn auto_pin<B: Board>(
    board: &mut B,
    x: &mut Session,
    user: u32,
    on: bool,
) -> Result<Reply, Stop>
    requires can { CanServe (B.sight board.old) x.old }
    ensures serves { Serves (B.sight board.old) x.old
        (turned x.old.slots (command.AutoPin user on)) Always result x.new (B.sight board.new) }
    ensures refuses { Refuses (own_refusal x.old (command.AutoPin user on)) (B.sight board.old) x.old
        result x.new (B.sight board.new) }
    // Want of memory comes before any action.
    ensures untouched { result ≡ Err stop.Memory
        → B.sight board.new ≡ record (B.sight board.old) {
          actions = (B.sight board.new).actions;
          bytes = (B.sight board.new).bytes;
        } }
{
    let Some(row) = x.row(user) else {
        return Ok(Reply::No(Refusal::NoUser));
    };
    let Some(opened) = find_entry(&x.opened, user) else {
        return Ok(Reply::No(Refusal::Locked));
    };
    if !differs(row.auto, on) {
        return Ok(Reply::Fine);
    }
    if x.settings.sequence() == u64::MAX {
        return Ok(Reply::No(Refusal::Worn));
    }
    let pin = shown_pin(row.kind, on, &opened.metrics);
    let Ok(next) = row_with_pin(x.alloc, row, on, pin) else {
        x.stopped = Some(Cause::Memory);
        return Err(Stop::Memory);
    };
    let Ok(work) = put_row(x.alloc, &x.settings, next) else {
        x.stopped = Some(Cause::Memory);
        return Err(Stop::Memory);
    };
    commits_touch_settings_files_alone();
    perform(board, x, work)
}
