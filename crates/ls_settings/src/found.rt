//! What two settings files say.
ghost use Rattle.std.specs.Prelude.{◌≡◌, MatchResult, Ok, Some};
ghost use Rattle.ls_naming.specs.Current.{unsettled, side_says, settings_of};
ghost use Rattle.ls_settings.specs.FileReading.{TellsForeign};
ghost use Rattle.ls_settings.specs.Loaded.{is_side};
ghost use Rattle.ls_settings.specs.Loading.{IsFound, is_whole, stays};

use crate::actions::{FILE_LENGTH, settings_name};
use crate::content::read_content;
use crate::fault::{FileFault, OpenRefusal};
use crate::files::Pair;
use crate::head::{current_side, is_open};
use crate::place::Place;
use crate::prepare::target_of;
use crate::settings::Settings;
use ls_bytes::Bytes;
use ls_formats::Side;
use ls_record::Record;
use std::alloc::Global;
use std::marker::Model;

/// What the current file says, or that there is none.
#[derive(Drop)]
struct Found {
    record: Record,
    sequence: u64,
    side: Option<Side>,
    end: Option<u32>,
    format: u8,
}

impl Model for Found {
    ghost use Rattle.ls_naming.specs.Current.{Settled};

    ghost Value = { Settled };

    ghost view = { λ f. record {
      rec = f.record;
      sequence = f.sequence;
      side = f.side;
      end = f.end;
      format = f.format;
    } };
}

/// No file says anything.
fn unsettled(alloc: Global) -> Found
    ensures none { result ≡ unsettled }
{
    Found {
        record: Record::new(alloc),
        sequence: 0,
        side: None,
        end: None,
        format: 2,
    }
}

/// What the file of a side says.
fn said_in(alloc: Global, side: Side, file: &[u8]) -> Result<Found, OpenRefusal>
    ensures exact { MatchResult result (λ f. side_says side (Some file.now) ≡ Ok f)
        (TellsForeign (side_says side (Some file.now))) }
{
    match read_content(alloc, file) {
        Ok(content) => Ok(Found {
            record: content.record,
            sequence: content.sequence,
            side: Some(side),
            end: content.end,
            format: content.format,
        }),
        Err(FileFault::Foreign { at }) => Err(OpenRefusal::Foreign {
            name: settings_name(alloc, side)?,
            at,
        }),
        Err(FileFault::Memory) => Err(OpenRefusal::Memory),
    }
}

/// What two files say.
fn said(alloc: Global, files: &Pair) -> Result<Found, OpenRefusal>
    ensures exact { MatchResult result (λ f. settings_of files.now.first files.now.second ≡ Ok f)
        (TellsForeign (settings_of files.now.first files.now.second)) }
{
    let Some(side) = current_side(&files.first, &files.second) else {
        return Ok(unsettled(alloc));
    };
    match files.of(side) {
        None => Ok(unsettled(alloc)),
        Some(file) => said_in(alloc, side, file.as_slice()),
    }
}

fn is_side(current: Option<Side>, side: Side) -> bool
    ensures same { result ≡ is_side current side }
{
    match (current, side) {
        (None, _) => false,
        (Some(Side::First), Side::First) => true,
        (Some(Side::First), Side::Second) => false,
        (Some(Side::Second), Side::First) => false,
        (Some(Side::Second), Side::Second) => true,
    }
}

fn is_whole(file: &Option<Bytes>) -> bool
    ensures same { result ≡ is_whole file.now }
{
    match file {
        None => false,
        Some(bytes) => bytes.as_slice().len() == FILE_LENGTH as usize,
    }
}

/// Whether loading leaves the file of a side: it is current, or has 4,096 bytes.
pub(crate) fn stays(current: Option<Side>, side: Side, file: &Option<Bytes>) -> bool
    ensures same { result ≡ stays current side file.now }
{
    is_side(current, side) || is_whole(file)
}

/// The settings that two files say.
pub(crate) fn settings_of(alloc: Global, files: &Pair) -> Result<Settings, OpenRefusal>
    ensures exact { MatchResult result (IsFound files.now.first files.now.second)
        (TellsForeign (settings_of files.now.first files.now.second)) }
{
    let found = said(alloc, files)?;
    let target = target_of(found.side);
    let file = files.of(target);
    let target_open = stays(found.side, target, file) && is_open(file);
    let place = Place {
        sequence: found.sequence,
        side: found.side,
        end: found.end,
        format: found.format,
        target_open,
    };
    Ok(Settings {
        record: found.record,
        place,
    })
}
