//! An arming of users for a restart.
ghost use Rattle.std.specs.Prelude.{◌≡◌, IfOk};
ghost use Rattle.ls_arming.specs.Disarming.{disarmed};

use crate::numbers::UserNumbers;
use ls_bytes::Memory;
use std::alloc::Global;

/// The users whose secrets are kept over a restart, and the boot at which they were armed.
#[derive(Drop)]
pub struct Arming {
    /// The boot of the session that armed.
    pub boot: u32,
    /// The numbers of the users, ascending.
    pub users: UserNumbers,
}

impl Arming {
    /// An equal arming.
    pub fn copy(&self, alloc: Global) -> Result<Arming, Memory>
        ensures same { IfOk result (λ copy. copy ≡ self.now) }
    {
        Ok(Arming {
            boot: self.boot,
            users: UserNumbers::of(alloc, self.users.as_slice())?,
        })
    }
}

/// An equal arming, where there is one.
pub fn copy_arming(alloc: Global, arming: &Option<Arming>) -> Result<Option<Arming>, Memory>
    ensures same { IfOk result (λ copy. copy ≡ arming.now) }
{
    match arming {
        None => Ok(None),
        Some(arming) => Ok(Some(arming.copy(alloc)?)),
    }
}

/// An arming without this user, and none where nobody is left. It takes no memory.
pub fn disarmed(arming: Option<Arming>, user: u32) -> Option<Arming>
    ensures same { result ≡ disarmed arming user }
{
    let mut arming = arming?;
    arming.users.remove(user);
    if arming.users.as_slice().is_empty() {
        None
    } else {
        Some(arming)
    }
}
