//! What a kept registration takes, part by part.

ghost use Rattle.std.specs.Prelude.{◌≡◌, ◌+◌, if◌then◌else◌, IfOk, option_map};
ghost use Rattle.sw_data.specs.Sizes.{text_size};
ghost use Rattle.sw_sizes.specs.declared.row.Edit.TheVariants as Edit;
ghost use Rattle.sw_sizes.specs.Rows.{active_bytes, edited, first_parts, parts_bytes, parts_of, preload_bytes, preload_size, waiting_bytes, worker_size};

use sw_data::{KeptRegistration, KeptWorker, NoMemory, Text};

// The bytes of a registration's key and scope, and those of each of its parts.
#[derive(Debug, Clone, Copy)]
pub(crate) struct Parts {
    pub(crate) names: u64,
    // The script and the body of the waiting worker.
    pub(crate) waiting: Option<u64>,
    // The script and the body of the active worker.
    pub(crate) active: Option<u64>,
    pub(crate) activated: bool,
    // The preload value, where preload isn't as it first is.
    pub(crate) preload: Option<u64>,
}

// What a change does to the parts of a registration.
#[derive(Debug, Clone, Copy)]
pub(crate) enum Edit {
    /// A worker of so many bytes waits.
    Waiting { worker: u64 },
    /// The waiting worker becomes the active one.
    Active,
    /// The active worker is activated.
    Activated,
    /// The preload value has so many bytes, or is as it first is.
    Preload { value: Option<u64> },
}

// A sum that its type has room for.
pub(crate) fn sum(left: u64, right: u64) -> Result<u64, NoMemory>
    ensures { IfOk result (λ sum. sum ≡ left + right) }
{
    match left.checked_add(right) {
        Some(sum) => Ok(sum),
        None => Err(NoMemory),
    }
}

fn text_size(text: &[u8]) -> Result<u64, NoMemory>
    ensures { IfOk result (λ size. size ≡ text_size text.now) }
{
    sum(4, text.len() as u64)
}

// The bytes of a key and a scope.
pub(crate) fn names_size(key: &Text, scope: &Text) -> Result<u64, NoMemory>
    ensures { IfOk result (λ size. size ≡ text_size key.now + text_size scope.now) }
{
    sum(text_size(key.as_bytes())?, text_size(scope.as_bytes())?)
}

// The bytes of a worker's script and body.
pub(crate) fn worker_size(worker: &KeptWorker) -> Result<u64, NoMemory>
    ensures { IfOk result (λ size. size ≡ worker_size worker.now) }
{
    sum(
        text_size(worker.script.as_bytes())?,
        text_size(worker.body.get().as_bytes())?,
    )
}

// The bytes of a worker, where there is one.
fn option_size(worker: &Option<KeptWorker>) -> Result<Option<u64>, NoMemory>
    ensures { IfOk result (λ size. size ≡ option_map worker_size worker.now) }
{
    match worker {
        Some(worker) => Ok(Some(worker_size(worker)?)),
        None => Ok(None),
    }
}

// The bytes of a preload value, none where preload is as it first is.
pub(crate) fn preload_size(on: bool, value: &Text) -> Result<Option<u64>, NoMemory>
    ensures { IfOk result (λ size. size ≡ preload_size on value.now) }
{
    if !on && value.as_str() == "true" {
        return Ok(None);
    }
    Ok(Some(text_size(value.as_bytes())?))
}

// The bytes of the change that makes a waiting worker.
fn waiting_bytes(names: u64, worker: Option<u64>) -> Result<u64, NoMemory>
    ensures { IfOk result (λ bytes. bytes ≡ waiting_bytes names worker) }
{
    match worker {
        Some(worker) => sum(sum(3, names)?, worker),
        None => Ok(0),
    }
}

// The bytes of the change that activates a worker.
fn activated_bytes(names: u64, activated: bool) -> Result<u64, NoMemory>
    ensures { IfOk result (λ bytes. bytes ≡ (if activated then 1 + names else 0)) }
{
    if activated { sum(1, names) } else { Ok(0) }
}

// The bytes of the changes that make a worker active.
fn active_bytes(names: u64, activated: bool, worker: Option<u64>) -> Result<u64, NoMemory>
    ensures { IfOk result (λ bytes. bytes ≡ active_bytes names activated worker) }
{
    match worker {
        Some(worker) => {
            let both = sum(sum(sum(3, names)?, worker)?, sum(1, names)?)?;
            sum(both, activated_bytes(names, activated)?)
        }
        None => Ok(0),
    }
}

// The bytes of the change of preload.
fn preload_bytes(names: u64, value: Option<u64>) -> Result<u64, NoMemory>
    ensures { IfOk result (λ bytes. bytes ≡ preload_bytes names value) }
{
    match value {
        Some(value) => sum(sum(2, names)?, value),
        None => Ok(0),
    }
}

impl Parts {
    // The parts of a kept registration.
    pub(crate) fn of(row: &KeptRegistration) -> Result<Parts, NoMemory>
        ensures { IfOk result (λ parts. parts ≡ (parts_of row.now).1) }
    {
        Ok(Parts {
            names: names_size(&row.key, &row.scope)?,
            waiting: option_size(&row.waiting)?,
            active: option_size(&row.active)?,
            activated: row.activated,
            preload: preload_size(row.preload, &row.preload_value)?,
        })
    }

    // A registration with its first waiting worker, of so many bytes.
    pub(crate) fn first(names: u64, worker: u64) -> Parts
        ensures { result ≡ first_parts names worker }
    {
        Parts {
            names,
            waiting: Some(worker),
            active: None,
            activated: false,
            preload: None,
        }
    }

    // The bytes of the changes that make the registration.
    pub(crate) fn bytes(&self) -> Result<u64, NoMemory>
        ensures { IfOk result (λ bytes. bytes ≡ parts_bytes self.now) }
    {
        let active = active_bytes(self.names, self.activated, self.active)?;
        let both = sum(active, waiting_bytes(self.names, self.waiting)?)?;
        sum(both, preload_bytes(self.names, self.preload)?)
    }

    // The parts with the waiting worker, where there is one, as the active one.
    fn promoted(self) -> Parts
        ensures { result ≡ edited Edit.Active self }
    {
        match self.waiting {
            Some(worker) => Parts {
                waiting: None,
                active: Some(worker),
                activated: false,
                ..self
            },
            None => self,
        }
    }

    // The parts after an edit.
    pub(crate) fn edited(self, edit: Edit) -> Parts
        ensures { result ≡ edited edit self }
    {
        match edit {
            Edit::Waiting { worker } => Parts {
                waiting: Some(worker),
                ..self
            },
            Edit::Active => self.promoted(),
            Edit::Activated => Parts {
                activated: self.activated || self.active.is_some(),
                ..self
            },
            Edit::Preload { value } => Parts {
                preload: value,
                ..self
            },
        }
    }
}
