// The functions of `exports` for callers in C and Rust, under the names and with the arguments of include/clearance.h. Each calls its own and
// promises the same. A slice crosses as a pointer and its length, an array as a pointer, a refusal as its number.
#![tactic(auto)]

ghost use Rattle.std.specs.Prelude.{◌≡◌};
ghost use Rattle.model.specs.Entries as entries;
ghost use Rattle.model.specs.Promises.{MapHolds, Bounds, whole_point, PointsHold};
ghost use Rattle.table_four.specs.Table as table;
ghost use Rattle.table_four.specs.Promises.{GoMeans};
ghost use Rattle.flat_jobs.specs.FlatJobs.{job_from};
ghost use Rattle.exports.specs.Rows.{read_leaves, bytes_left, nodes_left, lo_in, hi_in, numbers_left, go_in, placed_left};
ghost use Rattle.exports.specs.Versions.{version_number};

use flat_jobs::NUMBERS;

#[unsafe(no_mangle)]
pub extern "C" fn clearance_version() -> u64
    ensures number { result ≡ version_number }
{
    exports::clearance_version()
}

#[unsafe(no_mangle)]
pub extern "C" fn clearance_read(sheet: &[u8], job: &mut [i32; NUMBERS]) -> u8
    ensures refusal { result ≡ (entries.read sheet.now).refusal }
    ensures row { job.new ≡ read_leaves sheet.now job.old }
{
    exports::clearance_read(sheet, job)
}

#[unsafe(no_mangle)]
pub extern "C" fn clearance_write(job: &[i32], out: &mut [u8], bytes: &mut usize) -> u8
    ensures refusal { result ≡ (entries.write (job_from job.now) out.old).refusal }
    ensures count { bytes.new ≡ bytes_left (job_from job.now) out.old bytes.old }
    ensures lent { out.new ≡ entries.write_leaves (job_from job.now) out.old }
{
    exports::clearance_write(job, out, bytes)
}

#[unsafe(no_mangle)]
pub extern "C" fn clearance_map(
    job: &[i32],
    store: &mut [i32],
    cells: &mut [u8],
    nodes: &mut usize,
) -> u8
    ensures refusal { result ≡ (entries.map (job_from job.now) store.old cells.old).refusal }
    ensures count { nodes.new ≡ nodes_left (job_from job.now) store.old cells.old nodes.old }
    ensures trees { store.new ≡ entries.map_store (job_from job.now) store.old cells.old }
    ensures letters { cells.new ≡ entries.map_cells (job_from job.now) store.old cells.old }
    ensures demand3 { result ≡ 0 → MapHolds (job_from job.now) cells.new }
{
    exports::clearance_map(job, store, cells, nodes)
}

#[unsafe(no_mangle)]
pub extern "C" fn clearance_point(
    job: &[i32],
    x: i32,
    y: i32,
    store: &[i32],
    nearest: &mut [i64; 3],
) -> u8
    ensures refusal { result ≡ (entries.point (job_from job.now) x y store.now).refusal }
    ensures numbers { nearest.new ≡ numbers_left (job_from job.now) x y store.now nearest.old }
    ensures bounds { result ≡ 0 → Bounds (job_from job.now) (whole_point x y) (lo_in nearest.new) (hi_in nearest.new) }
{
    exports::clearance_point(job, x, y, store, nearest)
}

#[unsafe(no_mangle)]
pub extern "C" fn clearance_points(
    job: &[i32],
    spots: &[i32],
    store: &[i32],
    reply: &mut [i64],
) -> u8
    ensures refusal { result ≡ entries.points_refusal (job_from job.now) spots.now store.now reply.old }
    ensures lent { reply.new ≡ entries.points_reply (job_from job.now) spots.now store.now reply.old }
    ensures bounds { result ≡ 0 → PointsHold (job_from job.now) spots.now reply.new }
{
    exports::clearance_points(job, spots, store, reply)
}

#[unsafe(no_mangle)]
pub extern "C" fn clearance_clamps(
    job: &[i32],
    cells: &[u8],
    clamps: &[usize; 16],
    placed: &mut [usize; 4],
) -> u8
    ensures refusal { result ≡ (table.place (job_from job.now) cells.now clamps.now).refusal }
    ensures numbers { placed.new ≡ placed_left (job_from job.now) cells.now clamps.now placed.old }
    ensures go { result ≡ 0 → go_in placed.new ≡ 1 → MapHolds (job_from job.now) cells.now → GoMeans (job_from job.now) clamps.now }
{
    exports::clearance_clamps(job, cells, clamps, placed)
}
