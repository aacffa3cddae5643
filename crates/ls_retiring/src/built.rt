//! A protector that was built.

use ls_credential::Kind;
use ls_sealing::Place;

/// A protector that was built: where it is, and the kind of its credential, None where it is that of
/// a token.
#[derive(Clone, Copy)]
pub struct Built {
    pub place: Place,
    pub kind: Option<Kind>,
}
