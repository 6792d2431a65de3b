//! Whether every call of a run found memory.
ghost use Rattle.std.specs.Prelude.{◌≡◌};
ghost use Rattle.bench_runs.specs.Fed.{had_memory, is_fed, are_fed};

use lane_logs::LaneLog;
use plain_files::{Numbered, Reply};

fn had_memory(numbered: &Numbered) -> bool
    ensures { result ≡ had_memory numbered.now }
{
    !matches!(numbered.reply, Reply::NoMemory)
}

fn is_fed(log: &LaneLog) -> bool
    ensures { result ≡ is_fed log.now }
{
    log.entries.iter().all(|numbered| had_memory(numbered))
}

/// Whether no lane was told that one of its calls found no memory.
pub(crate) fn are_fed(logs: &[LaneLog]) -> bool
    ensures { result ≡ are_fed logs.now }
{
    logs.iter().all(|log| is_fed(log))
}
