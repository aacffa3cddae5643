//! A script: its lines, what they are answered, and the state after them.
ghost use Rattle.std.specs.Prelude.{◌≡◌, [], length, map, find, IfOk, Ok};
ghost use Rattle.std.specs.Prelude.{slice_get, option_map, option_and_then, unwrap_or};
ghost use Rattle.std.specs.Option.{option_copied};
ghost use Rattle.ls_script.specs.Commands.{is_refusal, refusal_or};
ghost use Rattle.ls_script.specs.ReplyText.{reply_text};
ghost use Rattle.ls_vault.specs.Script.{standing_of, carried, served_as, served_text};
ghost use Rattle.ls_vault.specs.Script.{replies, told, after};

use crate::refusal::is_opened;
use crate::stage::Stage;
use crate::state::State;
use crate::table::Table;
use crate::users::user_of;
use ls_bytes::{Bytes, Memory, put_bytes};
use ls_credential::Kind;
use ls_lines::first_line;
use ls_script::{Command, LineFault, Reply, ScriptLine, line, print_fault, print_reply};
use std::alloc::Global;

/// What a script is answered, and the state after it.
#[derive(Drop)]
pub struct Said {
    pub text: Bytes,
    pub state: State,
}

/// The replies to a script, with so many slots, from this state, at these moments and with this
/// noise. A command that takes a moment takes the next of them, the last one again and again; one
/// that draws bytes takes the next of the noise, behind its end zeros.
pub fn replies(
    alloc: Global,
    slots: u32,
    state: State,
    script: &[u8],
    moments: &[u64],
    noise: &[u8],
) -> Result<Said, Memory>
    ensures text { IfOk result (λ r.
        r.text ≡ replies slots state script.now moments.now noise.now) }
    ensures state { IfOk result (λ r. r.state ≡
        after state (told slots state script.now moments.now noise.now)
        (length (told slots state script.now moments.now noise.now))) }
{
    let mut stage = Stage::new(state, moments, noise);
    let mut text = Bytes::of(alloc, &[])?;
    let mut rest = script;
    while !rest.is_empty() {
        let (line, more) = first_line(rest);
        let served = served_text(alloc, slots, stage, line)?;
        stage = served.stage;
        put_bytes(&mut text, served.printed.as_slice())?;
        rest = more;
    }
    Ok(Said {
        text,
        state: stage.state,
    })
}

/// What is printed for a line, and the stage after it.
#[derive(Drop)]
struct Served<'a> {
    printed: Bytes,
    stage: Stage<'a>,
}

/// One line.
fn served_text<'a>(
    alloc: Global,
    slots: u32,
    stage: Stage<'a>,
    text: &[u8],
) -> Result<Served<'a>, Memory>
    ensures printed { IfOk result (λ x.
        x.printed ≡ (served_text slots stage.entry text.now).printed) }
    ensures stage { IfOk result (λ x. x.stage ≡ (served_text slots stage.entry text.now).stage) }
{
    match line(alloc, text) {
        Ok(line) => served_line(alloc, slots, stage, line),
        Err(LineFault::Memory) => Err(Memory),
        Err(why) => {
            let printed = print_fault(alloc, why)?;
            Ok(Served { printed, stage })
        }
    }
}

/// A line of the grammar.
fn served_line<'a>(
    alloc: Global,
    slots: u32,
    stage: Stage<'a>,
    line: ScriptLine,
) -> Result<Served<'a>, Memory>
    ensures printed { IfOk result (λ x.
        x.printed ≡ (served_as slots stage.entry (Ok line)).printed) }
    ensures stage { IfOk result (λ x. x.stage ≡ (served_as slots stage.entry (Ok line)).stage) }
{
    let place = line.reply_place();
    let standing = standing_asked(&stage.state, line.token_user());
    let commands = line.commands(alloc, standing)?;
    let done = carried(alloc, slots, stage, commands.as_slice())?;
    let printed = printed_for(alloc, place, done.replies.as_slice())?;
    Ok(Served {
        printed,
        stage: done.stage,
    })
}

/// How the user of a line stands, if the line asks for that.
fn standing_asked(state: &State, user: Option<u32>) -> Option<(bool, Kind)>
    ensures same { result ≡ option_and_then (standing_of state.now) user }
{
    user.and_then(|user| standing_of(state, user))
}

/// How a user stands: whether it is opened, and its stored kind.
fn standing_of(state: &State, user: u32) -> Option<(bool, Kind)>
    ensures same { result ≡ standing_of state.now user }
{
    user_of(state.vault.users.as_slice(), user).map(|u| (is_opened(state, user), u.credential.kind))
}

/// The replies to commands, and the stage after them.
#[derive(Drop)]
struct CommandsDone<'a> {
    replies: Table<Reply>,
    stage: Stage<'a>,
}

/// Commands, one after another. The first refusal ends them.
fn carried<'a>(
    alloc: Global,
    slots: u32,
    stage: Stage<'a>,
    commands: &[Command],
) -> Result<CommandsDone<'a>, Memory>
    ensures replies { IfOk result (λ x.
        x.replies ≡ map (λ e. e.reply) (carried slots stage.entry commands.now).entries) }
    ensures stage { IfOk result (λ x. x.stage ≡ (carried slots stage.entry commands.now).stage) }
{
    let mut stage = stage;
    let mut replies = Table::new(alloc);
    for command in commands {
        let (reply, next) = stage.carry_out(alloc, slots, command)?;
        stage = next;
        let ends = reply.is_refusal();
        replies.push(reply)?;
        if ends {
            return Ok(CommandsDone { replies, stage });
        }
    }
    Ok(CommandsDone { replies, stage })
}

/// The first refusal of these replies.
fn first_refusal(replies: &[Reply]) -> Option<&Reply>
    ensures same { option_copied result ≡ find is_refusal replies.now }
{
    replies.iter().find(|r| r.is_refusal())
}

/// The reply of a line: the refusal, or else that at its place.
fn line_reply(place: u32, replies: &[Reply]) -> Option<&Reply>
    ensures same { option_copied result ≡
        refusal_or (find is_refusal replies.now) (slice_get replies.now place) }
{
    match first_refusal(replies) {
        Some(refused) => Some(refused),
        None => replies.get(place as usize),
    }
}

/// What is printed for a line.
fn printed_for(alloc: Global, place: u32, replies: &[Reply]) -> Result<Bytes, Memory>
    ensures same { IfOk result (λ text. text ≡ unwrap_or (option_map reply_text
        (refusal_or (find is_refusal replies.now) (slice_get replies.now place))) []) }
{
    match line_reply(place, replies) {
        Some(reply) => print_reply(alloc, reply),
        None => Bytes::of(alloc, &[]),
    }
}
