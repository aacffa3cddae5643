//! The settings of one opening.
ghost use Rattle.std.specs.Prelude.{◌≡◌};

use crate::place::Place;
use ls_record::Record;
use std::marker::Model;

/// The record of users, and where it stands in the two settings files.
#[derive(Drop)]
pub struct Settings {
    pub(crate) record: Record,
    pub(crate) place: Place,
}

impl Model for Settings {
    ghost use Rattle.ls_settings.specs.Loaded.{Loaded};

    ghost Value = { Loaded };

    ghost view = { λ s. record {
      settled = record {
        rec = s.record;
        sequence = s.place.sequence;
        side = s.place.side;
        end = s.place.end;
        format = s.place.format;
      };
      target_open = s.place.target_open;
    } };
}

impl Settings {
    ghost use Rattle.ls_record.specs.Rows.{IsRecord};

    /// The record. It keeps its rules.
    pub fn record(&self) -> &Record
        ensures same { result.now ≡ self.now.settled.rec }
        ensures kept { IsRecord self.now.settled.rec }
    {
        // a record keeps its rules, as is known where one of its fields is read
        let _users = &self.record.users;
        &self.record
    }

    /// The sequence number of the record. Each commit raises it by one.
    pub fn sequence(&self) -> u64
        ensures same { result ≡ self.now.settled.sequence }
    {
        self.place.sequence
    }
}
