//! What is known of a model by its name.

ghost use Rattle.std.specs.Prelude.{◌≡◌};
ghost use Rattle.san_check.specs.walk.Composition.{nothing, known_as};

use crate::place::Place;
use crate::table::Table;
use san_base::Name;
use std::alloc::Global;

/// What a model declares: whether it is an atomic, the places that it shows, and the names of its
/// activities.
#[derive(Drop)]
pub struct Known<'a> {
    pub atomic: bool,
    pub places: Table<'a, Place>,
    pub acts: Table<'a, ()>,
}

impl<'a> Known<'a> {
    /// What a name stands for that no model has.
    pub(crate) fn nothing(alloc: Global) -> Known<'a>
        ensures { result ≡ nothing }
    {
        Known {
            atomic: false,
            places: Table::new(alloc),
            acts: Table::new(alloc),
        }
    }
}

/// The model of a name.
pub(crate) fn known_as<'a, 'b>(
    models: &'b Table<'a, Known<'a>>,
    none: &'b Known<'a>,
    name: &'a Name,
) -> &'b Known<'a>
    requires { none.now ≡ nothing }
    ensures { result.now ≡ known_as models.now name.now }
{
    models.find(name.as_bytes()).unwrap_or(none)
}
