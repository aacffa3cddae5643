//! The contents of protector files.
ghost use Rattle.std.specs.Prelude.{◌≡◌, ◌≢◌, ◌<◌, ◌^◌, ◌∷◌, [], MatchOption};
ghost use Rattle.ls_formats.specs.Format.{IsIn, first_fault};
ghost use Rattle.ls_formats.specs.Faults.{IsFirstFault};
ghost use Rattle.ls_formats.specs.Files.{format_of, field, just};
ghost use Rattle.ls_formats.specs.Rules.{row};
ghost use Rattle.ls_formats.specs.declared.field.Rule.TheVariants.{Any};

use crate::field::{Field, Rule, later, row_fault};
use crate::part::FilePart;

const PWD_WITHOUT_HANDLE: [Field; 6] = [
    Field {
        width: 1,
        rule: Rule::StoredKind,
    },
    Field {
        width: 1,
        rule: Rule::Between(1, 14),
    },
    Field {
        width: 1,
        rule: Rule::Between(0, 4),
    },
    Field {
        width: 1,
        rule: Rule::Between(0, 3),
    },
    Field {
        width: 16,
        rule: Rule::Any,
    },
    Field {
        width: 1,
        rule: Rule::Between(0, 0),
    },
];

const PWD_WITH_HANDLE: [Field; 7] = [
    Field {
        width: 1,
        rule: Rule::StoredKind,
    },
    Field {
        width: 1,
        rule: Rule::Between(1, 14),
    },
    Field {
        width: 1,
        rule: Rule::Between(0, 4),
    },
    Field {
        width: 1,
        rule: Rule::Between(0, 3),
    },
    Field {
        width: 16,
        rule: Rule::Any,
    },
    Field {
        width: 1,
        rule: Rule::Between(49, 49),
    },
    Field {
        width: 49,
        rule: Rule::Any,
    },
];

/// The first place at which a file of the part has bytes that it can't have, or ends. None where
/// the bytes are those of such a file. Blobs have faults of their own.
pub fn file_fault(part: FilePart, bytes: &[u8]) -> Option<u32>
    requires { part ≢ FilePart.SpBlob }
    ensures exact { result ≡ first_fault (format_of part) bytes.now }
    ensures first { MatchOption result (IsIn (format_of part) bytes.now)
        (IsFirstFault (IsIn (format_of part)) bytes.now) }
{
    fault_in(part, bytes)
}

fn fault_in(part: FilePart, bytes: &[u8]) -> Option<u32>
    requires { part ≢ FilePart.SpBlob }
    ensures exact { result ≡ first_fault (format_of part) bytes.now }
{
    match part {
        FilePart::SpBlob => unreachable!(),
        FilePart::Pwd => later(
            row_fault(&PWD_WITHOUT_HANDLE, bytes),
            row_fault(&PWD_WITH_HANDLE, bytes),
        ),
        FilePart::Secdis => later(bytes_fault(16_384, bytes), bytes_fault(16_412, bytes)),
        FilePart::Weaver => versioned_fault(4, bytes),
        FilePart::Metrics => bytes_fault(38, bytes),
        FilePart::Handle => bytes_fault(49, bytes),
        FilePart::E0 => bytes_fault(60, bytes),
        FilePart::P1 => bytes_fault(32, bytes),
        FilePart::Resume => versioned_fault(184, bytes),
    }
}

/// The fault of a file of so many bytes.
fn bytes_fault(width: u32, bytes: &[u8]) -> Option<u32>
    ensures exact { result ≡ first_fault (row (field width Any ∷ [])) bytes.now }
{
    row_fault(
        &[Field {
            width,
            rule: Rule::Any,
        }],
        bytes,
    )
}

/// The fault of a file of the byte 01 and so many bytes.
fn versioned_fault(width: u32, bytes: &[u8]) -> Option<u32>
    requires { width < 2 ^ 31 }
    ensures exact { result ≡ first_fault (row (just 1 ∷ field width Any ∷ [])) bytes.now }
{
    row_fault(
        &[
            Field {
                width: 1,
                rule: Rule::Between(1, 1),
            },
            Field {
                width,
                rule: Rule::Any,
            },
        ],
        bytes,
    )
}
