//! A disk is opened, and its host restarted.

ghost use Rattle.std.specs.Prelude.{◌≡◌, ◌≢◌, ◌≤◌, ◌^◌, ◌+◌, ◌↔◌, ℕ, List, length, IfOk, IsErrOf, OnOk};
ghost use Rattle.sw_data.specs.declared.storage.Kept as contents;
ghost use Rattle.sw_data.specs.Faults.{Rose};
ghost use Rattle.sw_disk.specs.DiskRule.{ForTold, capped};
ghost use Rattle.sw_disk.specs.Meanings.{LeavesOnly};
ghost use Rattle.sw_journal.specs.Format.{format_2, needed_length};
ghost use Rattle.sw_journal.specs.Journal.{Since};
ghost use Rattle.sw_journal.specs.Quiet.{LeavesAlone};
ghost use Rattle.sw_kept.specs.declared.opening.OpenError.TheVariants as refused;
ghost use Rattle.sw_kept.specs.Keeping.{KeepsNow, LeavesEither, StaysTold};
ghost use Rattle.sw_kept.specs.Spelling.{IsContents};
ghost use Rattle.sw_kept.specs.Stored.{Bad, HasKept, Unformatted, stored};
ghost use Rattle.sw_rules.specs.Restart.{restart};
ghost use Rattle.sw_rules.specs.Storage.{IsMade};
ghost use Rattle.sw_store.specs.Opened.{HasNoRoom, HasNoted, HasOpened, IsContentTooLong, IsFresh, IsOpened, IsRestartTooLong, IsUnopened, kept_restarted};
ghost use Rattle.sw_twin.specs.Twin.{StandsFor};
ghost use Rattle.sw_state.specs.Hosted.{state_of};

use crate::errors::OpenError;
use crate::group::Group;
use crate::store::Store;
use std::alloc::Global;
use sw_change::Content;
use sw_core::Core;
use sw_data::{Kept, NoMemory};
use sw_disk::Disk;
use sw_kept::{AppendError, CheckpointError, Twin, append, contents_of, go_over, open};

// The spelling of a restart.
const RESTARTED: [u8; 1] = [10];

// The same refusal of what the disk keeps.
fn refusal(error: sw_kept::OpenError) -> OpenError
    ensures not_formatted { result ≡ OpenError.NotFormatted → error ≡ refused.NotFormatted }
    ensures bad { (offset : ℕ) → result ≡ OpenError.BadJournal offset
        → error ≡ refused.BadJournal offset }
    ensures fault { (result ≡ OpenError.DiskFault) ↔ (error ≡ refused.DiskFault) }
    ensures not_full { (length needed : ℕ) → result ≡ OpenError.Full length needed → ⊥ }
{
    match error {
        sw_kept::OpenError::NoMemory => OpenError::NoMemory,
        sw_kept::OpenError::DiskFault => OpenError::DiskFault,
        sw_kept::OpenError::NotFormatted => OpenError::NotFormatted,
        sw_kept::OpenError::BadJournal(offset) => OpenError::BadJournal(offset),
    }
}

// A part in the older format is written anew in the newer one.
fn renew<D: Disk>(
    alloc: Global,
    twin: &mut Twin,
    disk: &mut D,
    base: &Kept,
) -> Result<(), OpenError>
    requires made { IsMade base.now }
    requires keeps { KeepsNow twin.old base.now D.Disk disk.old }
    ensures format { OnOk result (twin.new.journal.format ≡ format_2) }
    ensures limit { twin.new.journal.limit ≡ twin.old.journal.limit }
    ensures left { twin.old.journal.format ≡ format_2 → OnOk result (twin.new ≡ twin.old) }
    ensures anew { twin.old.journal.format ≢ format_2 → OnOk result ((contents : List ℕ)
        × IsContents base.now contents × (twin.new.journal.gate + 1 ≡ length contents)) }
    ensures keeps { OnOk result (KeepsNow twin.new base.now D.Disk disk.new) }
    ensures any_moment { ForTold (D.seen disk.old)
        (λ image. LeavesOnly D.Disk disk.old disk.new (HasKept base.now)) }
    ensures told { OnOk result (StaysTold D.Disk disk.old disk.new) }
    ensures known { IsOpened result }
    ensures full { (length needed : ℕ) → IsErrOf result (OpenError.Full length needed)
        → IsContentTooLong base.now twin.old length needed }
    ensures untouched { (length needed : ℕ) → IsErrOf result (OpenError.Full length needed)
        → disk.new ≡ disk.old }
    ensures fault { IsErrOf result OpenError.DiskFault
        → Rose (D.faults disk.old) (D.faults disk.new) }
    ensures later { D.clock disk.old ≤ D.clock disk.new }
    ensures count { D.faults disk.old ≤ D.faults disk.new }
{
    if twin.format() == 2 {
        return Ok(());
    }
    let contents = contents_of(alloc, base)?;
    match go_over(twin, disk, contents.as_bytes()) {
        Ok(()) => Ok(()),
        Err(CheckpointError::Full) => Err(OpenError::Full {
            length: contents.as_bytes().len() as u64,
            needed: 0,
        }),
        Err(CheckpointError::DiskFault) => Err(OpenError::DiskFault),
    }
}

// The restart is appended.
fn note<D: Disk>(twin: &mut Twin, disk: &mut D) -> Result<(), OpenError>
    requires format { twin.old.journal.format ≡ format_2 }
    requires stands { StandsFor twin.old D.Disk disk.old }
    ensures format { twin.new.journal.format ≡ format_2 }
    ensures limit { twin.new.journal.limit ≡ twin.old.journal.limit }
    ensures ones { twin.new.ones ≡ twin.old.ones }
    ensures gate { OnOk result
        (twin.new.journal.gate ≡ twin.old.journal.gate + needed_length format_2 1) }
    ensures fits { OnOk result (twin.new.journal.gate + 1 ≤ twin.new.journal.limit) }
    ensures keeps { (kept : contents.Kept) → KeepsNow twin.old kept D.Disk disk.old
        → OnOk result (KeepsNow twin.new (kept_restarted kept) D.Disk disk.new) }
    ensures any_moment { (kept : contents.Kept) → KeepsNow twin.old kept D.Disk disk.old
        → LeavesEither D.Disk disk.old disk.new kept (kept_restarted kept) }
    ensures acknowledged { (kept : contents.Kept) → KeepsNow twin.old kept D.Disk disk.old
        → OnOk result (ForTold (D.seen disk.old)
        (λ image. Since D.Disk disk.new disk.new (HasKept (kept_restarted kept)))) }
    ensures told { OnOk result (StaysTold D.Disk disk.old disk.new) }
    ensures known { IsOpened result }
    ensures full { (length needed : ℕ) → IsErrOf result (OpenError.Full length needed)
        → IsRestartTooLong twin.old length needed }
    ensures untouched { (length needed : ℕ) → IsErrOf result (OpenError.Full length needed)
        → disk.new ≡ disk.old }
    ensures fault { IsErrOf result OpenError.DiskFault
        → Rose (D.faults disk.old) (D.faults disk.new) }
    ensures calls { OnOk result (capped (D.clock disk.old + 4) ≤ D.clock disk.new) }
    ensures later { D.clock disk.old ≤ D.clock disk.new }
    ensures count { D.faults disk.old ≤ D.faults disk.new }
{
    twin.reserve(RESTARTED.len() as u64)?;
    match append(twin, disk, &RESTARTED) {
        Ok(()) => Ok(()),
        Err(AppendError::Full { length, needed }) => Err(OpenError::Full { length, needed }),
        Err(AppendError::DiskFault) => Err(OpenError::DiskFault),
    }
}

// The disk of a host that was restarted from what it keeps goes on with the restart.
fn go_on<D: Disk>(
    alloc: Global,
    twin: &mut Twin,
    disk: &mut D,
    base: &Kept,
) -> Result<(), OpenError>
    requires made { IsMade base.now }
    requires keeps { KeepsNow twin.old base.now D.Disk disk.old }
    ensures format { OnOk result (twin.new.journal.format ≡ format_2) }
    ensures limit { twin.new.journal.limit ≡ twin.old.journal.limit }
    ensures noted { OnOk result (HasNoted base.now twin.old twin.new) }
    ensures keeps { OnOk result (KeepsNow twin.new (kept_restarted base.now) D.Disk disk.new) }
    ensures any_moment { LeavesEither D.Disk disk.old disk.new base.now (kept_restarted base.now) }
    ensures acknowledged { OnOk result (ForTold (D.seen disk.old)
        (λ image. Since D.Disk disk.new disk.new (HasKept (kept_restarted base.now)))) }
    ensures told { OnOk result (StaysTold D.Disk disk.old disk.new) }
    ensures known { IsOpened result }
    ensures full { (length needed : ℕ) → IsErrOf result (OpenError.Full length needed)
        → HasNoRoom D.Disk disk.new twin.old.journal.limit length needed }
    ensures fault { IsErrOf result OpenError.DiskFault
        → Rose (D.faults disk.old) (D.faults disk.new) }
    ensures calls { OnOk result (capped (D.clock disk.old + 4) ≤ D.clock disk.new) }
    ensures later { D.clock disk.old ≤ D.clock disk.new }
    ensures count { D.faults disk.old ≤ D.faults disk.new }
{
    renew(alloc, twin, disk, base)?;
    note(twin, disk)
}

// A host of what is kept, before its restart is on the disk.
fn host(alloc: Global, twin: Twin, content: Content) -> Result<(Core, Kept, Twin), NoMemory>
    requires { IsMade content }
    ensures { IfOk result (λ r. (state_of r.0 ≡ restart content) × (r.1 ≡ content) × (r.2 ≡ twin)) }
{
    let base = content.to_kept(alloc)?;
    let core = Core::restart(alloc, content)?;
    Ok((core, base, twin))
}

// The restart is not on the disk.
fn unmade(core: Core, twin: Twin, base: Kept, error: OpenError) -> OpenError
    ensures { result ≡ error }
{
    drop(core);
    drop(twin);
    drop(base);
    error
}

// A host of what is kept goes on with its restart, on a disk that was opened.
fn resume<D: Disk>(
    alloc: Global,
    twin: Twin,
    content: Content,
    disk: &mut D,
) -> Result<Store, OpenError>
    requires made { IsMade content }
    requires keeps { KeepsNow twin content D.Disk disk.old }
    ensures base { IfOk result (λ store. store.base ≡ content) }
    ensures fresh { IfOk result (IsFresh twin.journal.limit) }
    ensures noted { IfOk result (λ store. HasNoted content twin store.twin) }
    ensures keeps { IfOk result
        (λ store. KeepsNow store.twin (kept_restarted content) D.Disk disk.new) }
    ensures any_moment { LeavesEither D.Disk disk.old disk.new content (kept_restarted content) }
    ensures acknowledged { OnOk result (ForTold (D.seen disk.old)
        (λ image. Since D.Disk disk.new disk.new (HasKept (kept_restarted content)))) }
    ensures told { OnOk result (StaysTold D.Disk disk.old disk.new) }
    ensures known { IsOpened result }
    ensures full { (length needed : ℕ) → IsErrOf result (OpenError.Full length needed)
        → HasNoRoom D.Disk disk.new twin.journal.limit length needed }
    ensures fault { IsErrOf result OpenError.DiskFault
        → Rose (D.faults disk.old) (D.faults disk.new) }
    ensures calls { OnOk result (capped (D.clock disk.old + 4) ≤ D.clock disk.new) }
    ensures later { D.clock disk.old ≤ D.clock disk.new }
    ensures count { D.faults disk.old ≤ D.faults disk.new }
{
    let (core, base, mut twin) = host(alloc, twin, content)?;
    match go_on(alloc, &mut twin, disk, &base) {
        Ok(()) => {
            let mark = twin.next();
            Ok(Store {
                core,
                twin,
                base,
                group: Group::new(alloc),
                mark,
                since: None,
            })
        }
        Err(error) => Err(unmade(core, twin, base, error)),
    }
}

impl Store {
    /// Opens a disk after a restart, also after a crash: reads what is kept, restarts a host from it, and appends the
    /// restart. A part in the older format is written anew first. The limit is how long a part may grow, in bytes.
    pub fn reopen<D: Disk>(alloc: Global, disk: &mut D, limit: u64) -> Result<Store, OpenError>
        requires { limit ≤ 2 ^ 32 }

        // After Ok the host is the restart of what the disk kept, and the disk keeps that restarted, also after a crash.
        ensures opened { IfOk result (HasOpened D.Disk disk.old disk.new) }
        ensures fresh { IfOk result (IsFresh limit) }

        // Each refusal is what the image keeps, or has its cause.
        ensures not_formatted { IsErrOf result OpenError.NotFormatted
            → LeavesAlone D.Disk disk.old disk.new
            × ForTold (D.seen disk.old) (λ image. stored image ≡ Unformatted) }
        ensures bad { (offset : ℕ) → IsErrOf result (OpenError.BadJournal offset)
            → LeavesAlone D.Disk disk.old disk.new
            × ForTold (D.seen disk.old) (λ image. stored image ≡ Bad offset) }
        ensures full { (length needed : ℕ) → IsErrOf result (OpenError.Full length needed)
            → HasNoRoom D.Disk disk.new limit length needed }
        ensures fault { IsErrOf result OpenError.DiskFault
            → Rose (D.faults disk.old) (D.faults disk.new) }

        // Whatever the answer, a crash leaves what is kept, as it is or restarted.
        ensures unopened { IsUnopened D.Disk disk.old disk.new }
    {
        match open(alloc, disk, limit) {
            Ok((twin, content)) => resume(alloc, twin, content, disk),
            Err(error) => Err(refusal(error)),
        }
    }
}
