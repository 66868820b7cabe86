//! The places of classes in the order of their names.

ghost use Rattle.std.specs.Prelude.{◌≡◌, List, IfOk};
ghost use Rattle.std.specs.BTreeMap.{IsOrdered, values};
ghost use Rattle.std.specs.Ordering.{nat_cmp};
ghost use Rattle.std.specs.Cmp.Lexicographic.{slice_cmp};
ghost use Rattle.class_heads.specs.declared.types.ClassHead.{ClassHead};
ghost use Rattle.class_world.specs.Names.{IsNameOrder};
ghost use Rattle.class_world.specs.Tables.{IsIndex};

use crate::names::Names;
use std::alloc::{AllocError, Global};

fn places_of(alloc: Global, names: &Names) -> Result<Vec<u32>, AllocError>
    ensures places { IfOk result (λ places. places.items ≡ values names.now) }
    ensures ordered { IsOrdered (slice_cmp nat_cmp) names.now }
{
    names.values().copied().collect(alloc)
}

/// The places of the classes in the order of their names, out of an index of the names.
pub(crate) fn in_order(alloc: Global, names: &Names) -> Result<Vec<u32>, AllocError>
    ensures { IfOk result (λ places. (heads : List ClassHead) → IsIndex heads names.now → IsNameOrder heads places.items) }
{
    let places = places_of(alloc, names)?;
    Ok(places)
}
