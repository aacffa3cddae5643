//! The devices in memory.
ghost use Rattle.std.specs.Prelude.{◌≤◌, length};

use ls_bytes::Memory;
use ls_gatekeeper::Gatekeeper;
use ls_keys::{KeyStore, ResumeCell};
use ls_weaver::Weaver;
use std::alloc::Global;

/// Slots, the Gatekeeper with its records, keys, and the resume cell.
#[derive(Drop)]
pub struct Devices {
    /// At most 256.
    pub slots: Weaver,
    pub gk: Gatekeeper,
    pub keys: KeyStore,
    pub cell: ResumeCell,
    ghost few: { length slots ≤ 256 },
}

impl Devices {
    ghost use Rattle.std.specs.Prelude.{◌≡◌, replicate, [], None, IfOk, OnOk};
    ghost use Rattle.ls_weaver.specs.Slots.{blank_slot};
    ghost use Rattle.ls_secure.specs.Held.{kept_of};

    /// So many blank slots, this key of the Gatekeeper, and nothing else.
    pub fn blank(alloc: Global, slots: u32, key: [u8; 32]) -> Result<Devices, Memory>
        requires few { slots ≤ 256 }
        ensures blank { IfOk result (λ d. kept_of d ≡ record {
          slots = replicate slots blank_slot;
          gk_key = key;
          records = [];
          keys = [];
          cell = None;
        }) }
    {
        Ok(Devices {
            slots: Weaver::new(alloc, slots)?,
            gk: Gatekeeper::new(alloc, key),
            keys: KeyStore::new(alloc),
            cell: ResumeCell::new(),
        })
    }

    /// Makes room for so many more records and keys, and changes nothing else.
    pub fn reserve(&mut self, n: u32) -> Result<(), Memory>
        ensures kept { kept_of self.new ≡ kept_of self.old }
        ensures records { self.old.gk.spare ≤ self.new.gk.spare }
        ensures keys { self.old.keys.spare ≤ self.new.keys.spare }
        ensures room { OnOk result ((n ≤ self.new.gk.spare) × (n ≤ self.new.keys.spare)) }
    {
        self.gk.reserve(n)?;
        self.keys.reserve(n)
    }
}
