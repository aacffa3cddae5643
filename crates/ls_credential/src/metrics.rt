//! What is counted of a credential's text.

use crate::kind::Kind;
use std::marker::Model;

/// What a credential's text is made of, in bytes. Each number is at most 16.
#[derive(Clone, Copy, Debug, PartialEq, Eq)]
pub struct Metrics {
    pub kind: Kind,
    pub length: u8,
    /// `A` to `Z` and `a` to `z`.
    pub letters: u8,
    /// `A` to `Z`.
    pub upper: u8,
    /// `a` to `z`.
    pub lower: u8,
    /// `0` to `9`.
    pub numeric: u8,
    /// All bytes that are no letter and no digit.
    pub symbols: u8,
    /// Digits and symbols.
    pub non_letter: u8,
    /// Letters and symbols.
    pub non_numeric: u8,
    /// The longest stretch in which each byte is one less than the one before it, or each the
    /// same, or each one more.
    pub run: u8,
}

impl Model for Metrics {
    ghost use Rattle.ls_credential.specs.Counts.{KindAndCounts, IsSmall};

    ghost Value = { KindAndCounts };

    ghost use Rattle.ls_credential.specs.SeenMetrics.{seen, fields_of};

    ghost view = { seen };

    ghost invariant = { λ m. IsSmall (seen m) };

    ghost inverse = { fields_of };
}
