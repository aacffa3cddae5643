//! Loading the settings, and a look at their record.
ghost use Rattle.std.specs.Prelude.{IsTrue};
ghost use Rattle.ls_board.specs.Acts.{Sight};
ghost use Rattle.ls_settings.specs.declared.fault.OpenRefusal.TheVariants as refusal;
ghost use Rattle.ls_board.specs.Keeping.{Keeps};
ghost use Rattle.ls_settings.specs.Loading.{Loads, Looks};

use crate::fault::OpenRefusal;
use crate::files::read_files;
use crate::found::settings_of;
use crate::make::make_files;
use crate::settings::Settings;
use ls_board::Board;
use ls_record::Record;
use std::alloc::Global;

impl Settings {
    /// Loads the settings of the two files. Where the current one has no fault, it makes each
    /// other settings file that hasn't 4,096 bytes, of zeros.
    pub fn load<B: Board>(alloc: Global, board: &mut B) -> Result<Settings, OpenRefusal>
        ensures keeps { Keeps refusal.Fault (B.sight board.old) (B.sight board.new) result }
        ensures loads { IsTrue (B.sight board.old).told
            → Loads (B.sight board.old) result (B.sight board.new) }
    {
        let files = read_files(alloc, board)?;
        let settings = settings_of(alloc, &files)?;
        make_files(alloc, board, &settings, &files)?;
        Ok(settings)
    }

    /// The record of the two files. It makes no file, and changes nothing.
    pub fn look<B: Board>(alloc: Global, board: &mut B) -> Result<Record, OpenRefusal>
        ensures keeps { Keeps refusal.Fault (B.sight board.old) (B.sight board.new) result }
        ensures looks { IsTrue (B.sight board.old).told
            → Looks (B.sight board.old) result (B.sight board.new) }
    {
        let files = read_files(alloc, board)?;
        let settings = settings_of(alloc, &files)?;
        Ok(settings.record)
    }
}
