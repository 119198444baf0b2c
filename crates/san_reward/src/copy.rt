//! Copies of lists.

ghost use Rattle.std.specs.Prelude.{◌≡◌, IfOk, map};

use std::alloc::{AllocError, Global};

/// A list of the same items.
pub(crate) fn copy_list<T: Copy>(alloc: Global, items: &[T]) -> Result<Vec<T>, AllocError>
    ensures { IfOk result (λ v. v.items ≡ items.now) }
{
    let mut list = Vec::with_capacity(alloc, items.len())?;
    for item in items {
        list.push(*item)?;
    }
    Ok(list)
}

/// The same for lists of lists.
pub(crate) fn copy_lists<T: Copy>(
    alloc: Global,
    lists: &[Vec<T>],
) -> Result<Vec<Vec<T>>, AllocError>
    ensures { IfOk result (λ v. map (λ x. x.items) v.items ≡ map (λ x. x.items) lists.now) }
{
    let mut table = Vec::with_capacity(alloc, lists.len())?;
    for list in lists {
        let row = copy_list(alloc, list.as_slice())?;
        table.push(row)?;
    }
    Ok(table)
}
