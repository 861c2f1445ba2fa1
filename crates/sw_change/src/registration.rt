//! A kept registration without its place, and what changes do to it.

ghost use Rattle.std.specs.Prelude.{◌≡◌, IfOk, None, Some, Ok, false};
ghost use Rattle.sw_data.specs.declared.storage.KeptWorker.{KeptWorker};
ghost use Rattle.sw_rules.specs.Storage.{first_waiting};
ghost use Rattle.sw_change.specs.Table.{Place, edited, kept_row, promoted_registration};

use std::alloc::Global;
use sw_data::{KeptRegistration, KeptWorker, Mode, NoMemory, Text};

// What is kept of a registration beside its key and its scope.
#[derive(Drop)]
pub(crate) struct Registration {
    pub(crate) mode: Mode,
    pub(crate) waiting: Option<KeptWorker>,
    pub(crate) active: Option<KeptWorker>,
    pub(crate) activated: bool,
    pub(crate) preload: bool,
    pub(crate) preload_value: Text,
}

// What a change does to a registration.
#[derive(Drop)]
pub(crate) enum Edit {
    /// It gets this mode and this waiting worker.
    Waiting { mode: Mode, worker: KeptWorker },
    /// Its waiting worker becomes the active one.
    Active,
    /// Its active worker is activated.
    Activated,
    Mode { mode: Mode },
    Preload { on: bool, value: Text },
}

// A worker of its own that equals this one.
pub(crate) fn copy_worker(alloc: Global, worker: &KeptWorker) -> Result<KeptWorker, NoMemory>
    ensures { IfOk result (λ copy. copy ≡ worker.now) }
{
    Ok(KeptWorker {
        script: worker.script.copy(alloc)?,
        kind: worker.kind,
        body: worker.body.share()?,
    })
}

// A worker of its own that equals this one, where there is one.
fn copy_option(alloc: Global, worker: &Option<KeptWorker>) -> Result<Option<KeptWorker>, NoMemory>
    ensures { IfOk result (λ copy. copy ≡ worker.now) }
{
    match worker {
        Some(worker) => Ok(Some(copy_worker(alloc, worker)?)),
        None => Ok(None),
    }
}

impl Registration {
    // A registration with its first waiting worker.
    pub(crate) fn first(
        alloc: Global,
        mode: Mode,
        worker: KeptWorker,
    ) -> Result<Registration, NoMemory>
        ensures { IfOk result (λ row. (place : Place)
            → kept_row (place, row) ≡ first_waiting place.0 place.1 mode worker) }
    {
        Ok(Registration {
            mode,
            waiting: Some(worker),
            active: None,
            activated: false,
            preload: false,
            preload_value: Text::of(alloc, "true")?,
        })
    }

    // What is kept of the registration at this place; it takes no memory.
    pub(crate) fn into_row(self, key: Text, scope: Text) -> KeptRegistration
        ensures { result ≡ kept_row ((key, scope), self) }
    {
        KeptRegistration {
            key,
            scope,
            mode: self.mode,
            waiting: self.waiting,
            active: self.active,
            activated: self.activated,
            preload: self.preload,
            preload_value: self.preload_value,
        }
    }

    // What is kept of the registration at this place, as data of its own.
    pub(crate) fn to_row(
        &self,
        alloc: Global,
        key: &Text,
        scope: &Text,
    ) -> Result<KeptRegistration, NoMemory>
        ensures { IfOk result (λ row. row ≡ kept_row ((key.now, scope.now), self.now)) }
    {
        Ok(KeptRegistration {
            key: key.copy(alloc)?,
            scope: scope.copy(alloc)?,
            mode: self.mode,
            waiting: copy_option(alloc, &self.waiting)?,
            active: copy_option(alloc, &self.active)?,
            activated: self.activated,
            preload: self.preload,
            preload_value: self.preload_value.copy(alloc)?,
        })
    }

    // The waiting worker, where there is one, becomes the active one, not activated. It takes no memory.
    pub(crate) fn promote(&mut self)
        ensures { self.new ≡ promoted_registration self.old }
    {
        if let Some(worker) = self.waiting.take() {
            self.active = Some(worker);
            self.activated = false;
        }
    }

    // Carries an edit out. It takes no memory.
    pub(crate) fn edit(&mut self, edit: Edit)
        ensures { (place : Place)
            → kept_row (place, self.new) ≡ edited edit (kept_row (place, self.old)) }
    {
        match edit {
            Edit::Waiting { mode, worker } => {
                self.mode = mode;
                self.waiting = Some(worker);
            }
            Edit::Active => self.promote(),
            Edit::Activated => self.activated = self.activated || self.active.is_some(),
            Edit::Mode { mode } => self.mode = mode,
            Edit::Preload { on, value } => {
                self.preload = on;
                self.preload_value = value;
            }
        }
    }
}
