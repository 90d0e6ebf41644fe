// Asks a fixed row of questions of each stored sheet's job, a line for each answer: ten points given the job's own store, and one point given
// stores that are longer, shorter, changed in one number, both, or without boxes, and the store of a coarser job. Beside the bounds it shows how many
// nodes a lookup of that point reads, by a second lookup that tells. The second implementation asks the same.
#![tactic(auto)]

ghost use Rattle.std.specs.Prelude.{◌≡◌, ◌≤◌, length};
ghost use Rattle.model.specs.Answers.{as_nearest};
ghost use Rattle.model.specs.Entries as entries;

use model::{Job, Nearest, Refusal};
use nodes::{LEAST, WIDTH};

// The job, its store and the numbers that it needs go through all questions apart: a struct would have to lend the store anew for each.

// Shows an answer to a question, with the nodes that a lookup of it reads, and nothing else.
fn show_answer(
    rt: &impl Print,
    answer: Result<Nearest, Refusal>,
    job: Job,
    x: i32,
    y: i32,
    store: &[i32],
)
    requires answer { as_nearest answer ≡ entries.point job x y store.now }
{
    match answer {
        Ok(near) => {
            case_files::show_number(rt, b"(point ", case_files::printable(near.lo));
            case_files::show_number(rt, b" ", case_files::printable(near.hi));
            case_files::show_number(rt, b" ", near.edge as u64);
            let found = distance::nearest(store, job.count, x, y);
            case_files::show_number(rt, b") (reads ", found.reads as u64);
            case_files::show(rt, b")\n");
        }
        Err(refusal) => {
            case_files::show_refusal(rt, u8::from(refusal));
        }
    }
}

// The answer for a point, given the first n numbers of the store.
fn ask(rt: &impl Print, job: Job, x: i32, y: i32, store: &[i32], n: usize) {
    let given = &store[..n.min(store.len())];
    show_answer(rt, clearance::point(job, x, y, given), job, x, y, given);
}

// Points in, on and past the range, and those of the first edge's place. The last numbers of a line's place are zeros, so there two are the origin
// again.
fn ask_spots(rt: &impl Print, job: Job, store: &[i32], need: usize) {
    let places = job.places;
    let spots = [
        (0, 0),
        (3, 4),
        (job.x, job.y),
        (places[0], places[1]),
        (places[2], places[3]),
        (places[4], places[5]),
        (places[6], places[7]),
        (1000000, -1000000),
        (1000001, 0),
        (0, -1000001),
    ];
    for (x, y) in spots {
        ask(rt, job, x, y, store, need);
    }
}

// The answer where number `at` of the store is another: the next, or 0 after the greatest. The store is left as it was.
fn ask_changed(rt: &impl Print, job: Job, store: &mut [i32], need: usize, at: usize) {
    if at < store.len() {
        let old = store[at];
        store[at] = old.checked_add(1).unwrap_or(0);
        ask(rt, job, 3, 4, store, need);
        store[at] = old;
    }
}

// The answers with the first, the middle and the last of the job's numbers changed in turn, given the first n of them.
fn ask_ends(rt: &impl Print, job: Job, store: &mut [i32], need: usize, n: usize) {
    for at in [0, need / 2, need.saturating_sub(1)] {
        ask_changed(rt, job, store, n, at);
    }
}

// The answers of the job with the finest grain, of which trees are long that are not with the job's own: it is given the job's own store, whole,
// short by one number, and each with a number changed.
fn ask_finest(rt: &impl Print, job: Job, store: &mut [i32], need: usize) {
    let finest = Job { grain: 1, ..job };
    let short = need.saturating_sub(1);
    ask(rt, finest, 3, 4, store, need);
    ask(rt, finest, 3, 4, store, short);
    ask_ends(rt, finest, store, need, need);
    ask_ends(rt, finest, store, need, short);
}

// The answers with each number of a node changed in turn.
fn ask_node(rt: &impl Print, job: Job, store: &mut [i32], need: usize, node: usize)
    requires few { node ≤ 4096 }
{
    for i in 0..WIDTH {
        ask_changed(rt, job, store, need, WIDTH * node + i);
    }
}

// The answer where no node has a box: each one's other numbers move to where they stand in a store that has none. The store is left so.
fn ask_packed(rt: &impl Print, job: Job, store: &mut [i32], nodes: usize)
    requires few { (nodes ≤ 4096) × (45056 ≤ length store.old) }
{
    for node in 0..nodes {
        let from = WIDTH * node;
        store.copy_within(from..from + LEAST, LEAST * node);
    }
    ask(rt, job, 3, 4, store, LEAST * nodes);
}

// Stores of one number more, one less and none; with each number of the first, the middle and the last node changed; one number less and one
// changed; of the job with the finest grain; and without boxes.
fn ask_stores(rt: &impl Print, job: Job, store: &mut [i32], nodes: usize)
    requires few { (nodes ≤ 4096) × (45056 ≤ length store.old) }
{
    let need = WIDTH * nodes;
    let short = need.saturating_sub(1);
    for n in [need + 1, short, 0] {
        ask(rt, job, 3, 4, store, n);
    }
    for node in [0, nodes / 2, nodes.saturating_sub(1)] {
        ask_node(rt, job, store, need, node);
    }
    ask_ends(rt, job, store, need, short);
    ask_finest(rt, job, store, need);
    ask_packed(rt, job, store, nodes);
}

// The questions of a job. Trees of up to 4,096 nodes have room, more than the program lends, and one number is there behind them. A map that is
// refused leaves the store empty.
fn ask_job(rt: &impl Print, job: Job) {
    let mut space = [0i32; 45057];
    let mut cells = [0u8; 65536];
    let store: &mut [i32] = &mut space;
    let nodes = clearance::map(job, store, &mut cells)
        .unwrap_or(0)
        .min(4096);
    ask_spots(rt, job, store, WIDTH * nodes);
    ask_stores(rt, job, store, nodes);
}

// One call: what the programs of stored cases share stands in `case_files`.
fn main(rt: HostRuntime) {
    case_files::each_job(&rt, |job| ask_job(&rt, job));
}
