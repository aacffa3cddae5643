//! The names and numbers that a board lists, read from the bytes of its answers.
ghost use Rattle.std.specs.Prelude.{◌≡◌, ◌≢◌, ◌<◌, ◌^◌, [], length, IfOk};
ghost use Rattle.std.specs.List.{AllByRecursion, flat_map};
ghost use Rattle.ls_bytes.specs.Fields.{be64};
ghost use Rattle.ls_bytes.specs.Names.{IsName};
ghost use Rattle.ls_board.specs.Listing.{line_of, IsFields, IsListing};
ghost use Rattle.ls_sweep.specs.Lines.{up_to_feed, AreLines, BeginsWith};

use byteorder::{BigEndian, ByteOrder};
use ls_bytes::{IdList, Memory, Name, NameList};
use std::alloc::Global;

/// The number that a field of eight bytes is.
fn number_of(field: &[u8]) -> u64
    requires { length field.now ≡ 8 }
    ensures field { be64 result ≡ field.now }
{
    BigEndian::read_u64(field)
}

/// The numbers that these fields are, each of eight bytes, the highest first.
pub fn numbers_of(alloc: Global, bytes: &[u8]) -> Result<IdList, Memory>
    requires fields { IsFields bytes.now }
    ensures fields { IfOk result (λ numbers. bytes.now ≡ flat_map be64 numbers) }
    ensures each { IfOk result (λ numbers. AllByRecursion (λ n. n < 2 ^ 64) numbers) }
{
    let mut numbers = IdList::new(alloc);
    let mut rest = bytes;
    while !rest.is_empty() {
        let (field, behind) = rest.split_at(8);
        numbers.push(number_of(field))?;
        rest = behind;
    }
    Ok(numbers)
}

/// How many bytes stand before the first line feed.
fn line_length(bytes: &[u8]) -> usize
    ensures count { result ≡ up_to_feed bytes.now }
{
    bytes.iter().take_while(|b| **b != b'\n').count()
}

/// The first line without its line feed, and the bytes behind it.
fn split_line(bytes: &[u8]) -> (&[u8], &[u8])
    requires lines { AreLines bytes.now }
    requires some { bytes.now ≢ [] }
    ensures line { BeginsWith bytes.now result.0.now result.1.now }
{
    let length = line_length(bytes);
    let (line, _) = bytes.split_at(length);
    let (_, behind) = bytes.split_at(length + 1);
    (line, behind)
}

/// The name of these bytes.
fn name_of(alloc: Global, bytes: &[u8]) -> Result<Name, Memory>
    ensures same { IfOk result (λ name. name ≡ bytes.now) }
{
    match Name::of(alloc, bytes) {
        Ok(name) => Ok(name),
        Err(_) => Err(Memory),
    }
}

/// The names that these lines are, each ended by a line feed.
pub fn names_of(alloc: Global, bytes: &[u8]) -> Result<NameList, Memory>
    requires listing { IsListing bytes.now }
    ensures lines { IfOk result (λ names. bytes.now ≡ flat_map line_of names) }
    ensures each { IfOk result (λ names. AllByRecursion IsName names) }
{
    let mut names = NameList::new(alloc);
    let mut rest = bytes;
    while !rest.is_empty() {
        let (line, behind) = split_line(rest);
        names.push(name_of(alloc, line)?)?;
        rest = behind;
    }
    Ok(names)
}
