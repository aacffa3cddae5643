//! Names of files.
ghost use Rattle.std.specs.Prelude.{◌≡◌, ◌⊎◌, IfOk, IfErr, Some, Err};
ghost use Rattle.std.specs.List.{prefix_len};
ghost use Rattle.ls_bytes.specs.Names.{is_name_byte};
ghost use Rattle.ls_bytes.specs.declared.name.NameFault.TheVariants as fault;
ghost use Rattle.ls_bytes.specs.declared.name.NameFault.{NameFault};

use std::alloc::{AllocError, Global};
use std::marker::Model;

/// The name of a file: 1 to 64 bytes of 0x21 to 0x7e, none of them `/`.
#[derive(Drop)]
pub struct Name {
    items: Vec<u8>,
}

impl Model for Name {
    ghost use Rattle.std.specs.Prelude.{List, ℕ};
    ghost use Rattle.ls_bytes.specs.Names.{IsName};

    ghost Value = { List ℕ };

    ghost view = { λ n. n.items.items };

    ghost invariant = { λ n. IsName n.items.items };
}

/// Why bytes are no name. A wrong length is told before a wrong byte.
#[derive(Clone, Copy, Debug, PartialEq, Eq)]
pub enum NameFault {
    /// There are none, or more than 64.
    Length,
    /// The byte at this place, from 0, is the first that can't stand in a name.
    Byte { at: u32 },
    /// There was no memory for the name.
    Memory,
}

impl From<AllocError> for NameFault {
    ghost from_gives = { λ _ e. e ≡ fault.Memory };

    fn from(_error: AllocError) -> NameFault {
        NameFault::Memory
    }
}

fn is_name_byte(b: u8) -> bool
    ensures same { result ≡ is_name_byte b }
{
    0x21 <= b && b <= 0x7e && b != b'/'
}

/// How many bytes at the front may stand in a name.
fn good_front(bytes: &[u8]) -> usize
    ensures count { result ≡ prefix_len is_name_byte bytes.now }
{
    bytes.iter().take_while(|b| is_name_byte(**b)).count()
}

impl Name {
    ghost use Rattle.ls_bytes.specs.Names.{IsName, name_fault};

    /// The name of these bytes.
    pub fn of(alloc: Global, bytes: &[u8]) -> Result<Name, NameFault>
        ensures named { IfOk result (λ name. (name ≡ bytes.now) × IsName bytes.now) }
        ensures faulty { (e : NameFault) → name_fault bytes.now ≡ Some e → result ≡ Err e }
        ensures fault { IfErr result (λ e. (e ≡ fault.Memory) ⊎ (name_fault bytes.now ≡ Some e)) }
    {
        if bytes.is_empty() || bytes.len() > 64 {
            return Err(NameFault::Length);
        }
        let good = good_front(bytes);
        if good < bytes.len() {
            return Err(NameFault::Byte { at: good as u32 });
        }
        Ok(Name {
            items: bytes.to_vec(alloc)?,
        })
    }

    /// The bytes, to look at.
    pub fn as_slice(&self) -> &[u8]
        ensures same { result.now ≡ self.now }
        ensures is_name { IsName self.now }
    {
        &self.items
    }
}
