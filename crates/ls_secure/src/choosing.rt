//! Which of the two secure files counts.
ghost use Rattle.std.specs.Prelude.{◌≡◌};
ghost use Rattle.ls_secure.specs.Choosing.{other, choice};
ghost use Rattle.ls_secure.specs.declared.choosing.SecureFile.TheVariants as file;

use crate::devices::Devices;

/// One of the two files.
#[derive(Clone, Copy, Debug, PartialEq, Eq)]
pub enum Side {
    /// The file `secure.0`.
    First,
    /// The file `secure.1`.
    Second,
}

impl Side {
    /// The other one of the two.
    pub fn other(self) -> Side
        ensures other { result ≡ other self }
    {
        match self {
            Side::First => Side::Second,
            Side::Second => Side::First,
        }
    }
}

/// What stands in the place of one of the two files.
#[derive(Drop)]
pub enum SecureFile {
    /// Nothing.
    Absent,
    /// Something that is no secure file.
    Foreign,
    /// The secure file of this sequence number that keeps these devices.
    Whole(u64, Devices),
}

/// What the two files say together.
#[derive(Drop)]
pub enum Chosen {
    /// Neither is there.
    Fresh,
    /// None is whole, and this is the first of those that are there.
    Foreign(Side),
    /// This one counts, with its sequence number and the devices that it keeps.
    Counts(Side, u64, Devices),
}

/// The first file is whole.
fn greater(sequence: u64, devices: Devices, second: SecureFile) -> Chosen
    ensures same { result ≡ choice (file.Whole sequence devices) second }
{
    match second {
        SecureFile::Whole(other, others) => {
            if sequence < other {
                return Chosen::Counts(Side::Second, other, others);
            }
            Chosen::Counts(Side::First, sequence, devices)
        }
        SecureFile::Absent => Chosen::Counts(Side::First, sequence, devices),
        SecureFile::Foreign => Chosen::Counts(Side::First, sequence, devices),
    }
}

/// The first file is there and isn't whole.
fn second_or_first(second: SecureFile) -> Chosen
    ensures same { result ≡ choice file.Foreign second }
{
    match second {
        SecureFile::Whole(sequence, devices) => Chosen::Counts(Side::Second, sequence, devices),
        SecureFile::Absent => Chosen::Foreign(Side::First),
        SecureFile::Foreign => Chosen::Foreign(Side::First),
    }
}

/// The first file isn't there.
fn second_alone(second: SecureFile) -> Chosen
    ensures same { result ≡ choice file.Absent second }
{
    match second {
        SecureFile::Whole(sequence, devices) => Chosen::Counts(Side::Second, sequence, devices),
        SecureFile::Absent => Chosen::Fresh,
        SecureFile::Foreign => Chosen::Foreign(Side::Second),
    }
}

/// The file that counts: of two whole ones that of the greater sequence number, the first at a tie.
pub fn choose(first: SecureFile, second: SecureFile) -> Chosen
    ensures same { result ≡ choice first second }
{
    match first {
        SecureFile::Whole(sequence, devices) => greater(sequence, devices, second),
        SecureFile::Foreign => second_or_first(second),
        SecureFile::Absent => second_alone(second),
    }
}
