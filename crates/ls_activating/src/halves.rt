//! The half of a user's secret, and that its file is at fault.
ghost use Rattle.std.specs.Prelude.{◌≡◌, IfOk, length};
ghost use Rattle.ls_board.specs.Acts.{Sight};
ghost use Rattle.ls_chain.specs.declared.fault.Spot.{Spot as Spots};
ghost use Rattle.ls_chain.specs.Looking.{Looks, Gives};
ghost use Rattle.ls_activating.specs.Halves.{half_in, half_at, corrupt_by};

use ls_board::Board;
use ls_bytes::{Memory, Name};
use ls_chain::{ChainFault, Spot, sound_file, spot_name};
use ls_formats::{FilePart, PartName};
use ls_gcm::OpenFault;
use ls_script::Refusal;
use ls_secret::Secret;
use std::alloc::Global;

/// The half to which the 60 bytes of an `e0` file open.
fn opened(alloc: Global, secret: &Secret, e0: &[u8]) -> Result<[u8; 32], ChainFault>
    requires long { length e0.now ≡ 60 }
    ensures gives { Gives (half_in secret.now e0.now) result }
{
    match secret.open_e0(alloc, e0) {
        Ok(p0) => Ok(p0),
        Err(OpenFault::Memory) => Err(ChainFault::Memory),
        Err(OpenFault::Tag) => Err(ChainFault::Corrupt(Spot {
            part: FilePart::E0,
            at: 0,
        })),
        Err(OpenFault::Short) => unreachable!(),
    }
}

/// The first half of a user's secret, by its `e0` file.
pub(crate) fn half<B: Board>(
    alloc: Global,
    board: &mut B,
    user: u32,
    secret: &Secret,
) -> Result<[u8; 32], ChainFault>
    ensures looks { Looks (half_at user secret.now) (B.sight board.old) result (B.sight board.new) }
{
    let part = FilePart::E0;
    let file = match sound_file(alloc, board, &PartName { user, id: 0, part }) {
        Ok(file) => file,
        Err(fault) => return Err(fault),
    };
    opened(alloc, secret, file.as_slice())
}

/// That the file of the half is at fault at a place.
pub(crate) fn corrupt_by(alloc: Global, user: u32, at: u32) -> Result<Refusal, Memory>
    ensures same { (spot : Spots) → spot.at ≡ at → IfOk result (λ why. why ≡ corrupt_by user spot) }
{
    let text = match spot_name(alloc, user, 1, FilePart::E0) {
        Ok(text) => text,
        Err(memory) => return Err(memory),
    };
    match Name::of(alloc, text.as_slice()) {
        Ok(name) => Ok(Refusal::Corrupt { name, at }),
        Err(_) => Err(Memory),
    }
}
