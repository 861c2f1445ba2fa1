//! The change of forgetting a key.

ghost use Rattle.std.specs.Prelude.{◌≡◌, ◌∷◌, [], IfOk};
ghost use Rattle.sw_data.specs.declared.storage.Change.TheVariants as change;

use crate::lists::one;
use std::alloc::Global;
use sw_data::{Change, NoMemory, Text};

// The changes of forgetting a key.
pub(crate) fn forgotten(alloc: Global, key: &Text) -> Result<Vec<Change>, NoMemory>
    ensures { IfOk result (λ changes. changes.items ≡ change.Forgot key.now ∷ []) }
{
    let key = key.copy(alloc)?;
    one(alloc, Change::Forgot { key })
}
