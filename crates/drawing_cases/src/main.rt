// Draws each stored sheet's map once more by rows and once more by quarters, from the trees that the map's call left, and tells how many bytes of
// each differ from what that call drew. Both ways are proved to draw the same; here the compiled code does both on every stored job.
#![tactic(auto)]

ghost use Rattle.std.specs.Prelude.{◌≡◌, ◌≤◌, length};
ghost use Rattle.drawing.specs.Ready.{MapReady};

use drawing::Way;
use model::Job;

// how many bytes differ of two maps, each drawn by itself
fn differing(a: &[u8], b: &[u8]) -> usize
    requires maps { length a.now ≡ length b.now }
    ensures most { result ≤ length a.now }
{
    let mut r = 0;
    // no chain: a `zip` of two has two ends a turn, which took twice the time
    for (i, x) in a.iter().enumerate() {
        r += usize::from(*x != b[i]);
    }
    r
}

// the map drawn again in one way, beside what was drawn
fn compare(job: Job, store: &[i32], cells: &[u8; 65536], way: Way) -> usize
    requires ready { MapReady job cells.now store.now }
    ensures most { result ≤ 65536 }
{
    let mut again = [0; 65536];
    drawing::draw_by(&mut again, store, job, way);
    differing(&again, cells)
}

fn show_ways(rt: &impl Print, job: Job, store: &[i32], cells: &[u8; 65536])
    requires ready { MapReady job cells.now store.now }
{
    case_files::show_number(rt, b"(rows ", compare(job, store, cells, Way::Rows) as u64);
    case_files::show_number(
        rt,
        b") (quarters ",
        compare(job, store, cells, Way::Quarters) as u64,
    );
    case_files::show(rt, b")\n");
}

// With as much memory as the program lends, so that the same jobs are refused.
fn draw_job(rt: &impl Print, job: Job) {
    let mut space = [0; 16379];
    let mut cells = [0; 65536];
    let store: &mut [i32] = &mut space;
    match clearance::map(job, store, &mut cells) {
        Ok(_) => show_ways(rt, job, store, &cells),
        Err(refusal) => {
            case_files::show_refusal(rt, u8::from(refusal));
        }
    }
}

// One call: what the programs of stored cases share stands in `case_files`.
fn main(rt: HostRuntime) {
    case_files::each_job(&rt, |job| draw_job(&rt, job));
}
