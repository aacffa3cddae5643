//! Doing again what a kept call did to the files.
ghost use Rattle.std.specs.Prelude.{◌≡◌, ◌∷◌, true, false, IfOk, OnOk};
ghost use Rattle.std.specs.FinMap.Entries.{put};
ghost use Rattle.ls_board.specs.Effect.{made_touch, poked_touch, file_at, touch_at, span_of, poke_mark, marked};
ghost use Rattle.ls_board.specs.Order.{byte_cmp, without};
ghost use Rattle.ls_board.specs.declared.touch.Span.{Span as Spans};
ghost use Rattle.ls_memboard.specs.Beside.{with_files_of};
ghost use Rattle.ls_memboard.specs.Calls.{call_of, IsIn};
ghost use Rattle.ls_memboard.specs.Replay.{after_call};

use crate::call::{Entry, Kind};
use crate::pool::part;
use crate::reading::{hold, hold_zeros, poke};
use ls_board::{Span, SpanList, Touch, TouchTable, World};
use ls_bytes::{Bytes, Memory, Name};
use std::alloc::Global;

/// The bytes of a name that was kept. They are a name, so only memory can be missing.
fn name_of(alloc: Global, bytes: &[u8]) -> Result<Name, Memory>
    ensures same { IfOk result (λ name. name ≡ bytes.now) }
{
    match Name::of(alloc, bytes) {
        Ok(name) => Ok(name),
        Err(_) => Err(Memory),
    }
}

/// How a file is touched, once it is made.
fn made(alloc: Global, world: &World, name: &[u8]) -> Result<Touch, Memory>
    ensures touch { IfOk result (λ touch. touch
        ≡ made_touch (touch_at world.now name.now) (file_at world.now name.now)) }
{
    match world.touched.how(name) {
        Some(how) => match how {
            Touch::Made(_) => how.copy(alloc),
            Touch::Poked(_) | Touch::Other => Ok(Touch::Other),
        },
        None => match world.files.content(name) {
            Some(bytes) => Ok(Touch::Made(Some(Bytes::of(alloc, bytes)?))),
            None => Ok(Touch::Made(None)),
        },
    }
}

/// The range of so many bytes. One whose length doesn't fit has no place in memory.
fn span(at: u32, bytes: &[u8]) -> Result<Span, Memory>
    ensures same { IfOk result (λ span. span ≡ span_of at bytes.now) }
{
    match u32::try_from(bytes.len()) {
        Ok(len) => Ok(Span { at, len }),
        Err(_) => Err(Memory),
    }
}

/// A range before others.
fn with_span(alloc: Global, span: Span, spans: &[Span]) -> Result<SpanList, Memory>
    ensures joined { IfOk result (λ list. list ≡ span ∷ spans.now) }
{
    let mut list = SpanList::new(alloc);
    list.push(span)?;
    for span in spans {
        list.push(*span)?;
    }
    Ok(list)
}

/// How a file is touched, once this range of it is poked.
fn poked(alloc: Global, world: &World, name: &[u8], span: Span) -> Result<Touch, Memory>
    ensures touch { IfOk result (λ touch. touch
        ≡ poked_touch (touch_at world.now name.now) span) }
{
    match world.touched.how(name) {
        Some(how) => match how {
            Touch::Poked(spans) => Ok(Touch::Poked(with_span(alloc, span, spans.as_slice())?)),
            Touch::Made(_) | Touch::Other => Ok(Touch::Other),
        },
        None => Ok(Touch::Poked(with_span(alloc, span, &[])?)),
    }
}

/// Says how the file is touched.
fn touch(alloc: Global, world: &mut World, name: &[u8], how: Touch) -> Result<(), Memory>
    ensures done { OnOk result (world.new
        ≡ record world.old { touched = put byte_cmp name.now how world.old.touched }) }
{
    let name = name_of(alloc, name)?;
    world.touched.put(&name, how)
}

/// Makes the file hold these bytes, and says how it is touched.
fn put_file(
    alloc: Global,
    world: &mut World,
    name: &[u8],
    bytes: &[u8],
    how: Touch,
) -> Result<(), Memory>
    ensures done { OnOk result (world.new ≡ record world.old {
      files = put byte_cmp name.now bytes.now world.old.files;
      touched = put byte_cmp name.now how world.old.touched;
    }) }
{
    let name = name_of(alloc, name)?;
    world.files.put(&name, bytes)?;
    world.touched.put(&name, how)
}

/// Takes the file away, and says how it is touched.
fn remove_file(alloc: Global, world: &mut World, name: &[u8], how: Touch) -> Result<(), Memory>
    ensures done { OnOk result (world.new ≡ record world.old {
      files = without byte_cmp name.now world.old.files;
      touched = put byte_cmp name.now how world.old.touched;
    }) }
{
    world.files.remove(name);
    touch(alloc, world, name, how)
}

/// Writes over a range of the file, and says how it is touched.
fn poke_file(
    alloc: Global,
    world: &mut World,
    name: &[u8],
    at: u32,
    bytes: &[u8],
    how: Touch,
) -> Result<(), Memory>
    ensures done { OnOk result (world.new
        ≡ marked world.old (record (poke_mark world.old name.now at bytes.now) { touch = how })) }
{
    let mut content = Vec::new(alloc);
    match world.files.content(name) {
        Some(old) => hold(&mut content, old)?,
        None => return remove_file(alloc, world, name, how),
    }
    poke(&mut content, at, bytes)?;
    put_file(alloc, world, name, &content, how)
}

/// Does again what a failed call without effect did to the files.
fn redo_touch(alloc: Global, world: &mut World, pool: &[u8], e: &Entry) -> Result<(), Memory>
    requires { IsIn pool.now e.now.kept }
    ensures done { OnOk result (world.new ≡ with_files_of world.old
        (after_call world.old (call_of pool.now e.now.kept) false e.now.count)) }
{
    let name = part(pool, e.kept.at, e.kept.name);
    match e.kept.kind {
        Kind::Make { .. } => {
            let how = made(alloc, world, name)?;
            touch(alloc, world, name, how)
        }
        Kind::Put | Kind::Remove => touch(alloc, world, name, Touch::Other),
        Kind::Poke { at } => {
            let bytes = part(pool, e.kept.at + e.kept.name, e.kept.bytes);
            let how = poked(alloc, world, name, span(at, bytes)?)?;
            touch(alloc, world, name, how)
        }
        _ => Ok(()),
    }
}

/// Does again what a whole call did to the files.
fn redo_whole(alloc: Global, world: &mut World, pool: &[u8], e: &Entry) -> Result<(), Memory>
    requires { IsIn pool.now e.now.kept }
    ensures done { OnOk result (world.new ≡ with_files_of world.old
        (after_call world.old (call_of pool.now e.now.kept) true e.now.count)) }
{
    let name = part(pool, e.kept.at, e.kept.name);
    let bytes = part(pool, e.kept.at + e.kept.name, e.kept.bytes);
    match e.kept.kind {
        Kind::Make { len } => {
            let how = made(alloc, world, name)?;
            let mut zeros = Vec::new(alloc);
            hold_zeros(&mut zeros, len)?;
            put_file(alloc, world, name, &zeros, how)
        }
        Kind::Put => put_file(alloc, world, name, bytes, Touch::Other),
        Kind::Poke { at } => {
            let how = poked(alloc, world, name, span(at, bytes)?)?;
            poke_file(alloc, world, name, at, bytes, how)
        }
        Kind::Remove => remove_file(alloc, world, name, Touch::Other),
        Kind::Sync => {
            world.touched = TouchTable::new(alloc);
            Ok(())
        }
        _ => Ok(()),
    }
}

/// Does again what a call did to the files.
pub(crate) fn redo(alloc: Global, world: &mut World, pool: &[u8], e: &Entry) -> Result<(), Memory>
    requires { IsIn pool.now e.now.kept }
    ensures done { OnOk result (world.new ≡ with_files_of world.old
        (after_call world.old (call_of pool.now e.now.kept) e.now.whole e.now.count)) }
{
    if e.whole {
        redo_whole(alloc, world, pool, e)
    } else {
        redo_touch(alloc, world, pool, e)
    }
}
