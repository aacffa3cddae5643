//! A number that was read, judged by its field's rule.
ghost use Rattle.std.specs.Prelude.{◌≡◌, if◌then◌else◌, Ok, Err};
ghost use Rattle.ls_record.specs.declared.fault.RecordFault.TheVariants.{Order, Limit};

use crate::fault::RecordFault;

/// The number of a field at a place, where its value and then its order are good.
pub(crate) fn judged<T: Copy>(n: T, at: u32, limit: bool, order: bool) -> Result<T, RecordFault>
    ensures value { result ≡
        (if limit then (if order then Ok n else Err (Order at)) else Err (Limit at)) }
{
    if !limit {
        Err(RecordFault::Limit { at })
    } else if !order {
        Err(RecordFault::Order { at })
    } else {
        Ok(n)
    }
}
