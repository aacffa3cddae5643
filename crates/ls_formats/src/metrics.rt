//! The opened contents of the file with a credential's counts.
ghost use Rattle.std.specs.Prelude.{◌≡◌, length, MatchOption};
ghost use Rattle.ls_formats.specs.Format.{IsIn, first_fault};
ghost use Rattle.ls_formats.specs.Faults.{IsFirstFault, Parses, HasFault};
ghost use Rattle.ls_formats.specs.Files.{metrics_format};

use crate::fault::FormatFault;
use crate::field::{Field, Rule, row_fault};
use crate::kinds::stored_kind;
use ls_bytes::{Bytes, Memory};
use ls_credential::{Kind, Metrics};
use std::alloc::Global;
use std::marker::Model;

const KIND_AND_COUNTS: [Field; 10] = [
    Field {
        width: 1,
        rule: Rule::StoredKind,
    },
    Field {
        width: 1,
        rule: Rule::Between(0, 16),
    },
    Field {
        width: 1,
        rule: Rule::Between(0, 16),
    },
    Field {
        width: 1,
        rule: Rule::Between(0, 16),
    },
    Field {
        width: 1,
        rule: Rule::Between(0, 16),
    },
    Field {
        width: 1,
        rule: Rule::Between(0, 16),
    },
    Field {
        width: 1,
        rule: Rule::Between(0, 16),
    },
    Field {
        width: 1,
        rule: Rule::Between(0, 16),
    },
    Field {
        width: 1,
        rule: Rule::Between(0, 16),
    },
    Field {
        width: 1,
        rule: Rule::Between(0, 16),
    },
];

/// The counts of a credential that isn't none, each at most 16, as ten bytes.
#[derive(Debug, Drop)]
pub struct MetricsFile {
    pub metrics: Metrics,
}

impl Model for MetricsFile {
    ghost use Rattle.std.specs.Prelude.{◌≢◌};
    ghost use Rattle.ls_credential.specs.Counts.{KindAndCounts};
    ghost use Rattle.ls_credential.specs.declared.kind.Kind.TheVariants.{Empty};

    ghost Value = { KindAndCounts };

    ghost view = { λ f. f.metrics };

    ghost invariant = { λ f. f.metrics.kind ≢ Empty };
}

impl MetricsFile {
    ghost use Rattle.std.specs.Prelude.{IfOk};
    ghost use Rattle.ls_formats.specs.Contents.{AreMetrics, metrics_bytes, metrics_of};

    /// The counts that the bytes are.
    pub fn parse(bytes: &[u8]) -> Result<MetricsFile, FormatFault>
        ensures exact { Parses AreMetrics metrics_bytes bytes.now result }
        ensures fault { HasFault result (first_fault metrics_format bytes.now) }
    {
        match counts_fault(bytes) {
            Some(at) => Err(FormatFault::Bad { at }),
            None => Ok(MetricsFile::read(bytes)),
        }
    }

    /// The counts that bytes of the format are.
    fn read(bytes: &[u8]) -> MetricsFile
        requires format { IsIn metrics_format bytes.now }
        requires long { length bytes.now ≡ 10 }
        ensures same { result ≡ metrics_of bytes.now }
    {
        MetricsFile {
            metrics: Metrics {
                kind: stored_kind(bytes[0]),
                length: bytes[1],
                letters: bytes[2],
                upper: bytes[3],
                lower: bytes[4],
                numeric: bytes[5],
                symbols: bytes[6],
                non_letter: bytes[7],
                non_numeric: bytes[8],
                run: bytes[9],
            },
        }
    }

    /// The one spelling of the counts.
    pub fn print(&self, alloc: Global) -> Result<Bytes, Memory>
        ensures spelled { IfOk result (λ bytes. bytes ≡ metrics_bytes self.now) }
        ensures kept { AreMetrics self.now }
    {
        let m = &self.metrics;
        Bytes::of(
            alloc,
            &[
                m.kind.code(),
                m.length,
                m.letters,
                m.upper,
                m.lower,
                m.numeric,
                m.symbols,
                m.non_letter,
                m.non_numeric,
                m.run,
            ],
        )
    }
}

/// The first place at which the bytes leave the format.
fn counts_fault(bytes: &[u8]) -> Option<u32>
    ensures exact { result ≡ first_fault metrics_format bytes.now }
    ensures first { MatchOption result (IsIn metrics_format bytes.now)
        (IsFirstFault (IsIn metrics_format) bytes.now) }
{
    row_fault(&KIND_AND_COUNTS, bytes)
}
