//! Changes that are appended to what a disk keeps.

ghost use Rattle.std.specs.Prelude.{◌≡◌, ◌↔◌, ◌+◌, ◌<◌, ◌≤◌, ℕ, List, length, IsErrOf, OnErr, OnOk};
ghost use Rattle.sw_data.specs.declared.storage.Change as changes;
ghost use Rattle.sw_data.specs.declared.storage.Kept.{Kept};
ghost use Rattle.sw_data.specs.Faults.{Rose};
ghost use Rattle.sw_disk.specs.DiskRule.{ForTold, capped};
ghost use Rattle.sw_journal.specs.Format.{format_2, needed_length};
ghost use Rattle.sw_journal.specs.Journal.{Since};
ghost use Rattle.sw_kept.specs.Keeping.{KeepsNow, LeavesEither, Spell, StaysTold};
ghost use Rattle.sw_kept.specs.Stored.{HasKept};
ghost use Rattle.sw_rules.specs.Storage.{kept_after};
ghost use Rattle.sw_twin.specs.Twin.{StandsFor};

use sw_disk::Disk;
use sw_twin::{AppendError, Twin};

/// Appends changes, which the payload spells, as one record. It takes no memory.
pub fn append<D: Disk>(twin: &mut Twin, disk: &mut D, payload: &[u8]) -> Result<(), AppendError>
    requires format { twin.old.journal.format ≡ format_2 }
    requires room { length payload.now ≤ twin.old.journal.spare }
    requires stands { StandsFor twin.old D.Disk disk.old }

    // Full comes exactly where the next free offset and what the record needs pass the limit.
    ensures full { (from needs : ℕ) → IsErrOf result (AppendError.Full from needs)
        ↔ ((from ≡ twin.old.journal.gate + 1)
        × (needs ≡ needed_length format_2 (length payload.now))
        × (twin.old.journal.limit < from + needs)) }
    ensures untouched { (from needs : ℕ) → IsErrOf result (AppendError.Full from needs)
        → disk.new ≡ disk.old }

    // After Ok the disk keeps the changes besides, also after a crash. At every moment of the call a crash leaves what it
    // kept before, or with all of these changes.
    ensures keeps { (kept : Kept) (all : List changes.Change) → Spell all payload.now
        → KeepsNow twin.old kept D.Disk disk.old
        → OnOk result (KeepsNow twin.new (kept_after kept all) D.Disk disk.new) }
    ensures any_moment { (kept : Kept) (all : List changes.Change) → Spell all payload.now
        → KeepsNow twin.old kept D.Disk disk.old
        → LeavesEither D.Disk disk.old disk.new kept (kept_after kept all) }
    ensures acknowledged { (kept : Kept) (all : List changes.Change) → Spell all payload.now
        → KeepsNow twin.old kept D.Disk disk.old
        → OnOk result (ForTold (D.seen disk.old)
        (λ image. Since D.Disk disk.new disk.new (HasKept (kept_after kept all)))) }

    ensures told { OnOk result (StaysTold D.Disk disk.old disk.new) }
    ensures next { OnOk result (twin.new ≡ record twin.old {
      journal = record twin.old.journal {
        gate = twin.old.journal.gate + needed_length format_2 (length payload.now);
        count = twin.old.journal.count + 1;
        spare = twin.new.journal.spare;
      };
    }) }
    ensures same { OnErr result (twin.new ≡ record twin.old {
      journal = record twin.old.journal { spare = twin.new.journal.spare };
    }) }
    ensures calls { OnOk result (D.clock disk.new ≡ capped (D.clock disk.old + 4)) }
    ensures most { D.clock disk.new ≤ D.clock disk.old + 4 }
    ensures later { D.clock disk.old ≤ D.clock disk.new }
    ensures fault { IsErrOf result AppendError.DiskFault
        → Rose (D.faults disk.old) (D.faults disk.new) }
    ensures count { D.faults disk.old ≤ D.faults disk.new }
{
    twin.append(disk, payload)
}
