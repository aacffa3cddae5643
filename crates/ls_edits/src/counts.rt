//! That the counts of a credential are small.
ghost use Rattle.ls_credential.specs.Counts.{metrics_of, IsSmall};

use ls_credential::Credential;

/// The counts of a credential are small: each is at most 16.
pub fn counts_are_small(credential: &Credential)
    ensures small { IsSmall (metrics_of credential.now) }
{
    let counts = credential.metrics();
    let _length = counts.length;
}
