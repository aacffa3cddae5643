//! What is done for each action.
ghost use Rattle.std.specs.Prelude.{◌≡◌, ◌⊎◌, ◌≤◌, ◌+◌, [], length, IfOk, IfErr, OnOk, Err};
ghost use Rattle.ls_board.specs.Effect.{after, Answers, HasShape, MayLack, IsSound, IsMomentAnswer};
ghost use Rattle.ls_board.specs.Listing.{IsListing};
ghost use Rattle.ls_secure.specs.Asked.{Asks};
ghost use Rattle.ls_secure.specs.Held.{world_of};

use crate::disk::{Disk, Found, is_secure};
use crate::secure::Secure;
use crate::streams;
use ls_answers::{list_ids, list_names};
use ls_board::{Action, Answer, Part};
use ls_bytes::Memory;
use ls_secure::Devices;
use std::alloc::{AllocError, Global};
use std::io::{self, ErrorKind};

/// All that the board reaches.
#[derive(Drop)]
pub struct Outside {
    pub(crate) rt: HostRuntime,
    pub(crate) disk: Disk,
    pub(crate) devices: Devices,
    pub(crate) secure: Secure,
}

/// Why an action isn't answered.
#[derive(Clone, Copy, Debug, PartialEq, Eq)]
pub(crate) enum Trouble {
    /// Its part failed.
    Failed,
    /// There was no memory for the bytes of the answer.
    Memory,
}

impl From<AllocError> for Trouble {
    ghost use Rattle.ls_dirboard.specs.declared.outside.Trouble.TheVariants as trouble;

    ghost from_gives = { λ _ t. t ≡ trouble.Memory };

    fn from(_error: AllocError) -> Trouble {
        Trouble::Memory
    }
}

/// What an action answers, or why it isn't answered.
pub(crate) type Outcome = Result<Answer, Trouble>;

/// An action that only changes something: it has no bytes.
fn changed(outcome: io::Result<()>) -> Outcome
    ensures done { IfOk result (λ answer. answer ≡ Answer.Done) }
    ensures failed { IfErr result (λ t. t ≡ Trouble.Failed) }
{
    match outcome {
        Ok(()) => Ok(Answer::Done),
        Err(_) => Err(Trouble::Failed),
    }
}

/// An action that may want memory for the bytes of its answer.
fn lacking(error: io::Error) -> Trouble {
    match error.kind() {
        ErrorKind::OutOfMemory => Trouble::Memory,
        _ => Trouble::Failed,
    }
}

/// Fails for the names of the files that keep the devices: they are no files of the board.
fn own(name: &[u8]) -> io::Result<()> {
    if is_secure(name) {
        return Err(ErrorKind::PermissionDenied.into());
    }
    Ok(())
}

impl Outside {
    /// Makes room for so many more device calls.
    pub(crate) fn make_room(&mut self, actions: u32) -> Result<(), Memory>
        ensures devices { world_of self.new.devices ≡ world_of self.old.devices }
        ensures records { self.old.devices.gk.spare ≤ self.new.devices.gk.spare }
        ensures keys { self.old.devices.keys.spare ≤ self.new.devices.keys.spare }
        ensures room { OnOk result ((actions ≤ self.new.devices.gk.spare)
            × (actions ≤ self.new.devices.keys.spare)) }
    {
        self.devices.reserve(actions)?;
        self.secure.make_room(actions)
    }

    fn list(&self, alloc: Global, out: &mut Vec<u8>) -> Outcome
        requires empty { out.old.items ≡ [] }
        ensures shape { IfOk result (λ answer. (answer ≡ Answer.Bytes) × IsListing out.new.items) }
    {
        match self.disk.list(alloc) {
            Ok(files) => {
                list_names(&files, out)?;
                Ok(Answer::Bytes)
            }
            Err(e) => Err(lacking(e)),
        }
    }

    fn read(&mut self, name: &[u8], out: &mut Vec<u8>) -> Outcome
        ensures shape { IfOk result (λ answer.
            ((answer ≡ Answer.Absent) × (out.new.items ≡ [])) ⊎ (answer ≡ Answer.Bytes)) }
        ensures devices { self.new.devices ≡ self.old.devices }
    {
        if is_secure(name) {
            out.clear();
            return Ok(Answer::Absent);
        }
        match self.disk.read(name, out) {
            Ok(Found::File(_)) => Ok(Answer::Bytes),
            Ok(_) => {
                out.clear();
                Ok(Answer::Absent)
            }
            Err(e) => Err(lacking(e)),
        }
    }

    /// A change of a file.
    fn change_file(&mut self, a: &Action) -> io::Result<()>
        ensures devices { self.new.devices ≡ self.old.devices }
    {
        match a {
            Action::Make { name, len } => {
                own(name.as_slice())?;
                self.disk.make(name.as_slice(), *len)
            }
            Action::Put { name, bytes } => {
                own(name.as_slice())?;
                self.disk.put(name.as_slice(), bytes.as_slice())
            }
            Action::Poke { name, at, bytes } => {
                own(name.as_slice())?;
                self.disk.poke(name.as_slice(), *at, bytes.as_slice())
            }
            Action::Remove { name } => {
                own(name.as_slice())?;
                self.disk.remove(name.as_slice())
            }
            _ => self.disk.sync(),
        }
    }

    fn hear(&self, max: u32, out: &mut Vec<u8>) -> Outcome
        requires some { 1 ≤ max }
        ensures shape { IfOk result (λ answer.
            ((answer ≡ Answer.End) × (out.new.items ≡ []))
            ⊎ ((answer ≡ Answer.Bytes) × (1 ≤ length out.new.items)
            × (length out.new.items ≤ max))) }
    {
        match streams::hear(&self.rt, max, out) {
            Ok(()) => Ok(if out.is_empty() {
                Answer::End
            } else {
                Answer::Bytes
            }),
            Err(e) => Err(lacking(e)),
        }
    }

    fn draw(&self, len: u32, out: &mut Vec<u8>) -> Outcome
        ensures shape { IfOk result (λ answer. (answer ≡ Answer.Bytes)
            × (length out.new.items ≡ len)) }
    {
        match streams::draw(&self.rt, len, out) {
            Ok(()) => Ok(Answer::Bytes),
            Err(e) => Err(lacking(e)),
        }
    }

    fn now(&self) -> Outcome
        ensures shape { IfOk result (λ answer. IsMomentAnswer answer) }
        ensures failed { IfErr result (λ t. t ≡ Trouble.Failed) }
    {
        match streams::now(&self.rt) {
            Ok(moment) => Ok(Answer::Moment(moment)),
            Err(_) => Err(Trouble::Failed),
        }
    }

    /// Whether what the action asks can still be asked.
    fn may_ask(&self, a: &Action) -> bool {
        match a.part() {
            Part::Weaver | Part::Gatekeeper | Part::Keys | Part::Resume => !self.secure.is_lost(),
            _ => true,
        }
    }

    /// Does the action, and answers it.
    pub(crate) fn answer(&mut self, alloc: Global, a: &Action, out: &mut Vec<u8>) -> Outcome
        requires empty { out.old.items ≡ [] }
        requires sound { IsSound (length self.old.devices.slots) a.now }
        requires records { 1 ≤ self.old.devices.gk.spare }
        requires keys { 1 ≤ self.old.devices.keys.spare }
        ensures shape { IfOk result (λ answer. HasShape a.now answer out.new.items) }
        ensures devices { IfOk result (λ answer. Asks a.now
            → Answers (world_of self.old.devices) a.now answer out.new.items
            × (world_of self.new.devices ≡ after (world_of self.old.devices) a.now 0)) }
        ensures lacking { result ≡ Err Trouble.Memory → MayLack a.now }
        ensures slots { length self.new.devices.slots ≡ length self.old.devices.slots }
        ensures records_after { self.old.devices.gk.spare ≤ self.new.devices.gk.spare + 1 }
        ensures keys_after { self.old.devices.keys.spare ≤ self.new.devices.keys.spare + 1 }
    {
        if !self.may_ask(a) {
            return Err(Trouble::Failed);
        }
        match a {
            Action::List => self.list(alloc, out),
            Action::Read { name } => self.read(name.as_slice(), out),
            Action::Make { .. }
            | Action::Put { .. }
            | Action::Poke { .. }
            | Action::Remove { .. }
            | Action::Sync => changed(self.change_file(a)),
            Action::WeaverWrite { .. }
            | Action::GkEnroll { .. }
            | Action::GkForget { .. }
            | Action::KeyPut { .. }
            | Action::KeyDrop { .. }
            | Action::ResumeStore { .. } => self.change_device(a),
            Action::WeaverRead { slot, key, moment } => self.read_slot(*slot, key, *moment),
            Action::GkSign {
                sid,
                salt,
                password,
            } => Ok(Answer::Handle(self.devices.gk.sign(*sid, *salt, password.as_slice()))),
            Action::GkVerify {
                handle,
                password,
                moment,
            } => self.verify(handle, password.as_slice(), *moment),
            Action::GkList => {
                list_ids(self.devices.gk.records(), out)?;
                Ok(Answer::Bytes)
            }
            Action::KeyOpen { alias, bytes } => self.open(alloc, *alias, bytes.as_slice(), out),
            Action::KeyList => {
                list_ids(self.devices.keys.keys(), out)?;
                Ok(Answer::Bytes)
            }
            Action::ResumeTake => self.take(),
            Action::Hear { max } => self.hear(*max, out),
            Action::Say { bytes } => changed(streams::say(&self.rt, bytes.as_slice())),
            Action::Now => self.now(),
            Action::Draw { len } => self.draw(*len, out),
        }
    }
}
