//! What a host tells of an addAll.

ghost use Rattle.std.specs.Prelude.{◌≡◌, option_map};
ghost use Rattle.std.specs.Option.{option_copied};
ghost use Rattle.sw_state.specs.Hosted.{state_of};
ghost use Rattle.sw_rules.specs.Rows.{task_row};

use sw_data::Text;
use sw_state::HostTables;

/// The key of an addAll. None exactly where there is no such addAll. It takes no memory.
pub fn task_key(host: &HostTables, task: u32) -> Option<&Text>
    ensures { option_copied result
        ≡ option_map (λ row. row.key) (task_row (state_of host.now) task) }
{
    Some(&host.tasks.row(task)?.key)
}
