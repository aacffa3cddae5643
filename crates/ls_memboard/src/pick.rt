//! What a cut makes the touched files hold.
ghost use Rattle.std.specs.Prelude.{◌≡◌, IfOk};
ghost use Rattle.std.specs.FinMap.Entries.{find};
ghost use Rattle.ls_board.specs.Order.{byte_cmp};
ghost use Rattle.ls_memboard.specs.Cuts.{held, is_poked, is_hit, noisy_byte, noisy, noisy_file, chosen, picker_of};

use ls_board::{FileTable, Span, Touch, TouchRow, World};
use ls_bytes::{Bytes, Memory};
use rand_core::SeedableRng;
use rand_core::utils::NextWord;
use rand_pcg::Pcg32;
use std::alloc::Global;

/// What the files that were touched hold after a crash.
#[derive(Clone, Copy, Debug, PartialEq, Eq)]
pub enum Pick {
    /// What they held at the last sync.
    Old,
    /// What they read as.
    New,
    /// The one or the other, with noise, by the numbers of this seed.
    Noise(u64),
}

/// A pick, with the numbers that are left.
#[derive(Drop)]
pub enum Picker {
    Old,
    New,
    Noise(Pcg32),
}

/// What a touched file held at the last sync, or at the start.
fn held_before(
    alloc: Global,
    synced: &Option<FileTable>,
    start: &World,
    row: &TouchRow,
) -> Result<Option<Bytes>, Memory>
    ensures held { IfOk result (λ content. content
        ≡ held synced.now start.now row.now.0 row.now.1) }
{
    let name = row.name.as_slice();
    match synced {
        Some(files) => copied(alloc, files, name),
        None => match &row.how {
            Touch::Made(Some(before)) => Ok(Some(Bytes::of(alloc, before.as_slice())?)),
            Touch::Made(None) => Ok(None),
            Touch::Poked(_) | Touch::Other => copied(alloc, &start.files, name),
        },
    }
}

/// What a file holds.
fn copied(alloc: Global, files: &FileTable, name: &[u8]) -> Result<Option<Bytes>, Memory>
    ensures same { IfOk result (λ content. content ≡ find byte_cmp name.now files.now) }
{
    match files.content(name) {
        Some(bytes) => Ok(Some(Bytes::of(alloc, bytes)?)),
        None => Ok(None),
    }
}

/// Whether a place lies in one of the ranges.
fn is_poked(spans: &[Span], at: u64) -> bool
    ensures same { result ≡ is_poked spans.now at }
{
    for span in spans {
        let from = u64::from(span.at);
        if from <= at && at < from + u64::from(span.len) {
            return true;
        }
    }
    false
}

/// Whether noise takes the place.
fn is_hit(how: &Touch, at: u64) -> bool
    ensures same { result ≡ is_hit how.now at }
{
    match how {
        Touch::Poked(spans) => is_poked(spans.as_slice(), at),
        Touch::Made(_) => false,
        Touch::Other => true,
    }
}

/// The byte of a place, or the lowest byte of the next number.
fn noisy_byte(hit: bool, byte: u8, rng: &mut Pcg32) -> u8
    ensures same { (result, rng.new) ≡ noisy_byte hit byte rng.old }
{
    if hit {
        (rng.next_word() % 256) as u8
    } else {
        byte
    }
}

/// Bytes with noise in the places that it takes.
fn noisy(alloc: Global, how: &Touch, bytes: &[u8], rng: &mut Pcg32) -> Result<Vec<u8>, Memory>
    ensures same { IfOk result (λ v. (v.items, rng.new) ≡ noisy (is_hit how.now) 0 bytes.now rng.old) }
{
    let mut out = Vec::new(alloc);
    for byte in bytes {
        let hit = is_hit(how, out.len() as u64);
        out.reserve(1)?;
        out.push_reserved(noisy_byte(hit, *byte, rng));
    }
    Ok(out)
}

/// The file with noise, if it is there.
fn noisy_file(
    alloc: Global,
    how: &Touch,
    now: Option<Bytes>,
    rng: &mut Pcg32,
) -> Result<Option<Bytes>, Memory>
    ensures same { IfOk result (λ content. (content, rng.new) ≡ noisy_file how.now now rng.old) }
{
    match now {
        Some(bytes) => Ok(Some(Bytes::from(noisy(alloc, how, bytes.as_slice(), rng)?))),
        None => Ok(None),
    }
}

impl Picker {
    /// The picker of a pick, with all its numbers.
    pub(crate) fn of(pick: Pick) -> Picker
        ensures same { result ≡ picker_of pick }
    {
        match pick {
            Pick::Old => Picker::Old,
            Pick::New => Picker::New,
            Pick::Noise(seed) => Picker::Noise(Pcg32::seed_from_u64(seed)),
        }
    }

    /// What a touched file holds in the image.
    pub(crate) fn choose(
        &mut self,
        alloc: Global,
        world: &World,
        synced: &Option<FileTable>,
        start: &World,
        row: &TouchRow,
    ) -> Result<Option<Bytes>, Memory>
        ensures chosen { IfOk result (λ content. (content, self.new)
            ≡ chosen (held synced.now start.now) world.now self.old row.now.0 row.now.1) }
    {
        match self {
            Picker::Old => held_before(alloc, synced, start, row),
            Picker::New => copied(alloc, &world.files, row.name.as_slice()),
            Picker::Noise(rng) => {
                if rng.next_word() % 2 == 0 {
                    return held_before(alloc, synced, start, row);
                }
                let now = copied(alloc, &world.files, row.name.as_slice())?;
                noisy_file(alloc, &row.how, now, rng)
            }
        }
    }
}
