//! Short lists of changes.

ghost use Rattle.std.specs.Prelude.{◌≡◌, ◌∷◌, [], IfOk};

use std::alloc::Global;
use sw_data::{Change, NoMemory};

// One change.
pub(crate) fn one(alloc: Global, change: Change) -> Result<Vec<Change>, NoMemory>
    ensures { IfOk result (λ changes. changes.items ≡ change ∷ []) }
{
    let mut changes = Vec::new(alloc);
    changes.push(change)?;
    Ok(changes)
}

// No changes. It takes no memory.
pub(crate) fn nothing(alloc: Global) -> Vec<Change>
    ensures { result.items ≡ [] }
{
    Vec::new(alloc)
}
