//! Booking steps in the journal.

ghost use Rattle.std.specs.Prelude.{◌≡◌, ◌≤◌, ◌+◌, ◌++◌, ◌∷◌, [], vec_capacity, vec_len};

use crate::step::Step;

/// Books a step, for which there is room.
pub(crate) fn book(journal: &mut Vec<Step>, step: Step)
    requires { vec_len journal.old + 1 ≤ vec_capacity journal.old }
    ensures items { journal.new.items ≡ journal.old.items ++ step ∷ [] }
    ensures len { vec_len journal.new ≡ vec_len journal.old + 1 }
    ensures room { vec_capacity journal.old ≤ vec_capacity journal.new }
{
    let Ok(()) = journal.push(step) else {
        unreachable!()
    };
}
