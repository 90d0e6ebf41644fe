// The library for callers in C and Rust: reading, writing, the map, points and table four's clamps, over numbers and slices. `exports_c` gives
// each its name in C. A job is a row of `flat_jobs::NUMBERS` numbers; of a row that is shorter the missing numbers are 0, so one that ends before
// its marks is of cubics alone, and of one that is longer the rest is not looked at. None asks anything of its caller, and a refused call changes
// nothing. Each gives a refusal by its number, as C takes it. What calls one after the other promise stands in specs/Promises.antt.
#![tactic(auto)]

ghost use Rattle.std.specs.Prelude.{◌≡◌};
ghost use Rattle.model.specs.Entries as entries;
ghost use Rattle.model.specs.Promises.{MapHolds, Bounds, whole_point, PointsHold};
ghost use Rattle.table_four.specs.Table as table;
ghost use Rattle.table_four.specs.Promises.{GoMeans};
ghost use Rattle.flat_jobs.specs.FlatJobs.{job_from};
ghost use Rattle.exports.specs.Rows.{read_leaves, bytes_left, nodes_left, lo_in, hi_in, numbers_left, go_in, placed_left};
ghost use Rattle.exports.specs.Versions.{version_number};

use flat_jobs::NUMBERS;
use table_four::Placed;

// Numbers a job, numbers a node, and the version: 583, 11 and 1.1.0.
const VERSION: u64 = 58_311_001_001_000;

// Tells which library this is: the length of a job's row, that of a node, and the version, one behind the other in decimal.
pub fn clearance_version() -> u64
    ensures number { result ≡ version_number }
{
    VERSION
}

// Reads a sheet into `job`: 0, or the sheet's refusal 1, 2, 3 or 4.
#[tactic(auto, unfolding(crate::specs::Rows::read_leaves, model::specs::Refusals::accepted))]
pub fn clearance_read(sheet: &[u8], job: &mut [i32; NUMBERS]) -> u8
    ensures refusal { result ≡ (entries.read sheet.now).refusal }
    ensures row { job.new ≡ read_leaves sheet.now job.old }
{
    match clearance::read(sheet) {
        Ok(found) => {
            flat_jobs::put_job(found, job);
            0
        }
        Err(refusal) => u8::from(refusal),
    }
}

// Writes a job's sheet at the front of `out`: 0 and how many bytes, or the refusal 2, 3, 4 or 7.
pub fn clearance_write(job: &[i32], out: &mut [u8], bytes: &mut usize) -> u8
    ensures refusal { result ≡ (entries.write (job_from job.now) out.old).refusal }
    ensures count { bytes.new ≡ bytes_left (job_from job.now) out.old bytes.old }
    ensures lent { out.new ≡ entries.write_leaves (job_from job.now) out.old }
{
    match clearance::write(flat_jobs::job_from(job), out) {
        Ok(written) => {
            *bytes = written;
            0
        }
        Err(refusal) => u8::from(refusal),
    }
}

// Draws a job's map at the front of `cells`, with its trees at the front of `store`: 0 and how many nodes they have, or the refusal 2 to 7.
pub fn clearance_map(job: &[i32], store: &mut [i32], cells: &mut [u8], nodes: &mut usize) -> u8
    ensures refusal { result ≡ (entries.map (job_from job.now) store.old cells.old).refusal }
    ensures count { nodes.new ≡ nodes_left (job_from job.now) store.old cells.old nodes.old }
    ensures trees { store.new ≡ entries.map_store (job_from job.now) store.old cells.old }
    ensures letters { cells.new ≡ entries.map_cells (job_from job.now) store.old cells.old }
    ensures demand3 { result ≡ 0 → MapHolds (job_from job.now) cells.new }
{
    match clearance::map(flat_jobs::job_from(job), store, cells) {
        Ok(built) => {
            *nodes = built;
            0
        }
        Err(refusal) => u8::from(refusal),
    }
}

// Bounds a point's squared distance from a job's outline: 0 and the two bounds with the first edge that attains the upper one, or the refusal 2,
// 3, 4, 5, 6 or 8.
pub fn clearance_point(job: &[i32], x: i32, y: i32, store: &[i32], nearest: &mut [i64; 3]) -> u8
    ensures refusal { result ≡ (entries.point (job_from job.now) x y store.now).refusal }
    ensures numbers { nearest.new ≡ numbers_left (job_from job.now) x y store.now nearest.old }
    ensures bounds { result ≡ 0 → Bounds (job_from job.now) (whole_point x y) (lo_in nearest.new) (hi_in nearest.new) }
{
    match clearance::point(flat_jobs::job_from(job), x, y, store) {
        Ok(found) => {
            let edge = found.edge as i64;
            *nearest = [found.lo, found.hi, edge];
            0
        }
        Err(refusal) => u8::from(refusal),
    }
}

// The same for up to 256 points, x and y of each in turn: 0 and each point's two bounds and edge in turn at the front of `reply`, or the refusal 2,
// 3, 4, 9, 5, 6, 7 or 8, the first in this order.
pub fn clearance_points(job: &[i32], spots: &[i32], store: &[i32], reply: &mut [i64]) -> u8
    ensures refusal { result ≡ entries.points_refusal (job_from job.now) spots.now store.now reply.old }
    ensures lent { reply.new ≡ entries.points_reply (job_from job.now) spots.now store.now reply.old }
    ensures bounds { result ≡ 0 → PointsHold (job_from job.now) spots.now reply.new }
{
    match clearance::points(flat_jobs::job_from(job), spots, store, reply) {
        Ok(()) => 0,
        Err(refusal) => u8::from(refusal),
    }
}

// Asks for table four's clamps on a map of the job, four numbers each: 0 and go, 1 or 0, with the clamp, the column and the row that stop it, or the
// refusal 2, 3, 4, 7, 10 or 11.
pub fn clearance_clamps(
    job: &[i32],
    cells: &[u8],
    clamps: &[usize; 16],
    placed: &mut [usize; 4],
) -> u8
    ensures refusal { result ≡ (table.place (job_from job.now) cells.now clamps.now).refusal }
    ensures numbers { placed.new ≡ placed_left (job_from job.now) cells.now clamps.now placed.old }
    ensures go { result ≡ 0 → go_in placed.new ≡ 1 → MapHolds (job_from job.now) cells.now → GoMeans (job_from job.now) clamps.now }
{
    match table_four::place(flat_jobs::job_from(job), cells, *clamps) {
        Ok(Placed::Go) => {
            *placed = [1, 0, 0, 0];
            0
        }
        Ok(Placed::Stopped(stop)) => {
            *placed = [0, stop.clamp, stop.cell.column, stop.cell.row];
            0
        }
        Err(refusal) => u8::from(refusal),
    }
}
