// A caller of the library, proved from its face alone: a job goes into a sheet and comes back, and the job that came back is mapped.
#![tactic(auto)]

ghost use Rattle.std.specs.Prelude.{◌≡◌, IfOk, OnOk};
ghost use Rattle.model.specs.Answers.{told};
ghost use Rattle.model.specs.Entries as entries;
ghost use Rattle.model.specs.Promises.{MapHolds};

use model::{Job, Refusal};

// The job that was read, and what drawing its map gave.
#[derive(Clone, Copy)]
pub struct Trip {
    pub job: Job,
    pub mapped: Result<usize, Refusal>,
}

// Writes the job at the front of `out`, reads the bytes written, and maps the job that they hold. What is written is read: only writing can be
// refused before the map. An accepted map is true of the job that was given.
pub fn go(job: Job, out: &mut [u8], store: &mut [i32], cells: &mut [u8]) -> Result<Trip, Refusal>
    ensures written { told result ≡ (entries.write job out.old).refusal }
    ensures came_back { IfOk result (λ trip. trip.job ≡ job) }
    ensures mapped { IfOk result (λ trip. told trip.mapped ≡ (entries.map job store.old cells.old).refusal) }
    ensures demand3 { IfOk result (λ trip. OnOk trip.mapped (MapHolds job cells.new)) }
{
    let n = clearance::write(job, out)?;
    let back = clearance::read(&out[..n])?;
    let mapped = clearance::map(back, store, cells);
    Ok(Trip { job: back, mapped })
}
