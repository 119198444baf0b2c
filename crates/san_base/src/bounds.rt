//! When the value of a reward's term counts, and when it is a fault.

ghost use Rattle.std.specs.Prelude.{◌≡◌};
ghost use Rattle.san_base.specs.Rated.{rated_by, term_value};

use crate::ending::Trap;
use crate::limits::MAX_RATED;
use crate::term::Rated;

/// The value of a term, a fault where it traps or is out of its bounds (own rules).
pub fn rated(e: Result<i64, Trap>) -> Rated
    ensures { term_value result ≡ rated_by e }
{
    match e {
        Ok(v) => {
            if v.unsigned_abs() <= MAX_RATED {
                Rated::Value(v)
            } else {
                Rated::Fault
            }
        }
        Err(_) => Rated::Fault,
    }
}
