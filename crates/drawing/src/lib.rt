// The map of a job from a store that holds its trees, in one of two ways. The plate is quartered: a block that its open trees settle is filled at
// once, and each quarter of any other asks only the trees that are still open. Or, where the reach is small, each tree is drawn over the rows.
#![tactic(auto)]

ghost use Rattle.std.specs.Prelude.{◌≡◌, List, ◌+◌, ◌*◌, ◌/◌, ◌≤◌, pos, nat_abs, ◌*ℤ◌, length, take};
ghost use Rattle.std.specs.Int.Signed.{le_z};
ghost use Rattle.model.specs.Jobs.{judge};
ghost use Rattle.model.specs.Trees.{Tree};
ghost use Rattle.model.specs.Plates.{columns, map_of};
ghost use Rattle.model.specs.Entries.{over as written};
ghost use Rattle.inheritance.specs.Edges.{EachInherits};
ghost use Rattle.subtrees.specs.At.{At};
ghost use Rattle.search.specs.Probes.{Fair, judged_by};
ghost use Rattle.open_edges.specs.Starts.{Starts};
ghost use Rattle.filling.specs.Squares.{over, Drawn};
ghost use Rattle.columns.specs.Limits.{FrameSized};
ghost use Rattle.drawing.specs.Letters.{frame_of, way_of, asked, own_letter};
ghost use Rattle.drawing.specs.Ready.{Ready, MapReady};
ghost use Rattle.drawing.specs.Tells.{Tells};
ghost use Rattle.drawing.specs.ByRows.{Shallow, EachShallow, ShallowAt, ShallowTrees, RowsOpen, raised_to, tree_says, trees_say};

use columns::Frame;
use levels::Levels;
use model::{CLEAR, DOUBTFUL, INSIDE, Job};
use nodes::{COUNT, WIDTH};
use open_edges::Seen;
use search::Probe;

// The block of w by w smallest cells at column c and row r.
#[derive(Clone, Copy)]
struct Block {
    c: usize,
    r: usize,
    w: usize,
}

impl Block {
    // what the block asks of every strip: its middle and half its side, and the reach
    fn probe(self, frame: Frame) -> Probe
        requires within { FrameSized frame × (self.c + self.w ≤ frame.n) × (self.r + self.w ≤ frame.n) }
        ensures fair { Fair result }
        ensures block { judged_by result ≡ asked frame self.c self.r self.w }
    {
        let x = frame.x + (2 * self.c + self.w) as i64 * frame.q;
        let y = frame.y + (2 * self.r + self.w) as i64 * frame.q;
        let s = self.w as i64 * frame.q;
        search::probe_of(x, y, s, frame.reach)
    }

    // its quarter at column c and row r
    fn quarter(self, c: usize, r: usize) -> Block
        ensures quarter { result ≡ record { c = c; r = r; w = self.w / 2 } }
    {
        Block {
            c,
            r,
            w: self.w / 2,
        }
    }
}

// The map is lent to be written and the store to be read, so the two and the frame stay apart: a struct of loans would be no plainer.

// What the open trees tell of a block: the letter of all its cells, or how many trees are still open.
#[derive(Clone, Copy)]
enum Told {
    Settled(u8),
    Open(usize),
}

// asks the open trees of a block, and keeps the starts of those that are not away. It has a letter where its answer is not maybe or it is a
// smallest cell
fn settle(store: &[i32], list: &[usize], keep: &mut [usize; 64], frame: Frame, block: Block) -> Told
    requires ready { Ready store.now list.now frame block }
    ensures told { Tells store.now list.now keep.new frame block result }
{
    match open_edges::explore_open(store, list, keep, block.probe(frame)) {
        Seen::Inside => Told::Settled(INSIDE),
        Seen::Open(0) => Told::Settled(CLEAR),
        Seen::Open(_) if block.w == 1 => Told::Settled(DOUBTFUL),
        Seen::Open(kept) => Told::Open(kept),
    }
}

// Draws a block. It needs the bytes up to the block's last row and no more.
fn draw(map: &mut [u8], store: &[i32], list: &[usize], frame: Frame, block: Block)
    requires ready { Ready store.now list.now frame block }
    requires space { (block.r + block.w) * frame.n ≤ length map.old }
    ensures letters { (ts : List Tree) → Starts store.now list.now ts → EachInherits (way_of frame) ts → Drawn frame.n map.new map.old (over (own_letter frame ts) block.c block.r block.w) }
{
    let mut keep = [0; 64];
    match settle(store, list, &mut keep, frame, block) {
        Told::Settled(letter) => {
            filling::fill_square(map, frame.n, block.c, block.r, block.w, letter);
        }
        Told::Open(kept) => {
            let open = &keep[..kept];
            let Block { c, r, w } = block;
            let (right, upper) = (c + w / 2, r + w / 2);
            draw(map, store, open, frame, block.quarter(c, r));
            draw(map, store, open, frame, block.quarter(right, r));
            draw(map, store, open, frame, block.quarter(c, upper));
            draw(map, store, open, frame, block.quarter(right, upper));
        }
    }
}

// ---- by rows

// raises each cell of the map to what the tree that starts at place a answers for it
fn draw_at(map: &mut [u8], store: &[i32], a: usize, frame: Frame, levels: &mut Levels)
    requires tree { ShallowAt store.now a }
    requires ready { RowsOpen frame map.old levels.old }
    ensures letters { (t : Tree) → At store.now a t → Shallow t → Drawn frame.n map.new map.old (raised_to frame (tree_says frame t)) }
    ensures ready { RowsOpen frame map.new levels.new }
{
    let size = nodes::count_at(store, a + COUNT);
    rows::draw_tree(map, &store[a..a + WIDTH * size], frame, frame.n, levels);
}

// the same for the trees that start at these places
#[tactic(auto, using(crate::proofs::Raises::shallow_at, crate::proofs::Raises::begin, crate::proofs::Raises::step, crate::proofs::Raises::finish))]
fn draw_trees(map: &mut [u8], store: &[i32], places: &[usize], frame: Frame, levels: &mut Levels)
    requires trees { ShallowTrees store.now places.now }
    requires ready { RowsOpen frame map.old levels.old }
    ensures letters { (ts : List Tree) → Starts store.now places.now ts → EachShallow ts → Drawn frame.n map.new map.old (raised_to frame (trees_say frame ts)) }
{
    for a in places {
        draw_at(map, store, *a, frame, levels);
    }
}

// draws the n rows a tree at a time: C everywhere, and then what each tree raises it to
fn draw_by_rows(map: &mut [u8], store: &[i32], places: &[usize], frame: Frame)
    requires trees { ShallowTrees store.now places.now }
    requires ready { FrameSized frame × (frame.n * frame.n ≤ length map.old) }
    ensures letters { (ts : List Tree) → Starts store.now places.now ts → EachShallow ts → Drawn frame.n map.new map.old (over (own_letter frame ts) 0 0 frame.n) }
{
    filling::fill_square(map, frame.n, 0, 0, frame.n, CLEAR);
    let mut levels = Levels::new();
    levels.open_all(frame.n, frame.n);
    draw_trees(map, store, places, frame, &mut levels);
}

// Whether rows are taken to be the faster way: the reach is small beside the plate, so that few of a row's cells are near an edge.
fn is_by_rows(frame: Frame) -> bool
    requires sizes { FrameSized frame }
    ensures small { result ≡ le_z (pos 24 *ℤ frame.reach) (pos 2 *ℤ frame.q *ℤ pos frame.n) }
{
    24 * frame.reach <= 2 * frame.q * frame.n as i64
}

// ---- a job's frame and its map

// The cells a side of a legal job's map.
pub fn columns_of(job: Job) -> usize
    requires legal { judge job ≡ 0 }
    ensures side { result ≡ columns job }
    ensures few { result ≤ 256 }
{
    1 << (job.n - job.m)
}

// a length of a job in fine units
fn fine(z: i32) -> i64
    requires size { nat_abs z ≤ 1000000 }
    ensures sixteenths { result ≡ pos 16 *ℤ z }
{
    16 * i64::from(z)
}

// the frame of a legal job's rows from one row on
fn frame_of(job: Job, row: usize) -> Frame
    requires legal { judge job ≡ 0 }
    requires within { row ≤ columns job }
    ensures frame { result ≡ frame_of job row }
{
    let q = 8 << job.m;
    Frame {
        n: columns_of(job),
        x: fine(job.x),
        y: fine(job.y) + (2 * row) as i64 * q,
        q,
        k: job.m as usize + 4,
        reach: fine(job.reach),
    }
}

// The two ways to draw. Either way it is the same map.
#[derive(Clone, Copy, Debug, PartialEq, Eq)]
pub enum Way {
    Rows,
    Quarters,
}

// Draws the map of a legal job, whose trees the store begins with, in one way.
pub fn draw_by(cells: &mut [u8], store: &[i32], job: Job, way: Way)
    requires ready { MapReady job cells.old store.now }
    ensures map { cells.new ≡ written (map_of job) cells.old }
{
    let mut list = [0; 64];
    open_edges::list_starts(store, &mut list[..job.count]);
    let places = &list[..job.count];
    let frame = frame_of(job, 0);
    match way {
        Way::Rows => draw_by_rows(cells, store, places, frame),
        Way::Quarters => {
            let whole = Block {
                c: 0,
                r: 0,
                w: frame.n,
            };
            draw(cells, store, places, frame, whole);
        }
    }
}

// Draws it in the way that is taken to be the faster one. Which it is no contract can see, nor need it: the map is the same.
pub fn draw_map(cells: &mut [u8], store: &[i32], job: Job)
    requires ready { MapReady job cells.old store.now }
    ensures map { cells.new ≡ written (map_of job) cells.old }
{
    let way = if is_by_rows(frame_of(job, 0)) {
        Way::Rows
    } else {
        Way::Quarters
    };
    draw_by(cells, store, job, way);
}
