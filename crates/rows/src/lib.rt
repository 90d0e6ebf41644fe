// A tree drawn over the rows of a map: each cell's byte is raised to what the tree answers for it. A node's answer for a whole row is two stretches
// of columns, and its halves are asked only where it is not away.
#![tactic(auto)]

ghost use Rattle.std.specs.Prelude.{◌≡◌, false, not, cond, ◌&&◌, ℕ, ◌+◌, ◌*◌, ◌≤◌, ◌<◌, max, ltb, length, get_or};
ghost use Rattle.model.specs.Trees.{Tree};
ghost use Rattle.model.specs.Store.{flatten};
ghost use Rattle.model.specs.Explore.{explore};
ghost use Rattle.ranges.specs.Sizes.{AllSized};
ghost use Rattle.filling.specs.Squares.{Drawn};
ghost use Rattle.spans.specs.Among.{among};
ghost use Rattle.raising.specs.Raised.{raised};
ghost use Rattle.columns.specs.Views.{away_in, inside_in, asked₁};
ghost use Rattle.rows.specs.Weights.{weight};
ghost use Rattle.rows.specs.Bands.{ends_of};
ghost use Rattle.rows.specs.Waiting.{depth, ShallowTree};
ghost use Rattle.levels.specs.Open.{open_in, Fits};
ghost use Rattle.columns.specs.Limits.{FrameSized, ViewSized};
ghost use Rattle.rows.specs.Levels.{AllOpen, Narrowed};

use columns::{Frame, View};
use levels::Levels;
use model::{DOUBTFUL, INSIDE};
use nodes::{COUNT, WIDTH};
use spans::Span;

// ---- one node

// A node over the rows of its level that it reaches.
#[derive(Clone, Copy)]
struct Node {
    v: View,
    frame: Frame,
    d: usize,
    rows: Span,
    ghost view_sized: { ViewSized v },
    ghost frame_sized: { FrameSized frame },
    ghost shallow: { d < 11 },
    ghost few: { rows.hi ≤ frame.n },
}

// The map and the levels are lent apart, since they come from two callers.
impl Node {
    // whether a cell can have the strip inside its reach: the upright box is smaller than the reach
    fn is_small(&self) -> bool
        ensures otherwise { result ≡ false → (i j : ℕ) → inside_in self.now.frame self.now.v i j ≡ false }
    {
        let Node { v, frame, .. } = *self;
        v.ex * v.ex + v.ey * v.ey < frame.reach * frame.reach
    }

    // raises the cells that are open at its level, in its rows, to I where the strip is inside
    fn paint_deep(&self, map: &mut [u8], levels: &Levels)
        requires ready { Fits self.now.frame.n levels.now × (self.now.rows.hi * self.now.frame.n ≤ length map.old) }
        ensures cells { Drawn self.now.frame.n map.new map.old (λ i j. raised (among self.now.rows j && open_in levels.now self.now.d i j && inside_in self.now.frame self.now.v i j) 73) }
    {
        if !self.is_small() {
            return;
        }
        let Node { v, frame, d, rows } = *self;
        let near = rows.meet(columns::reached(v.y, frame.reach - v.ey, frame));
        let aside = columns::reached(v.x, frame.reach - v.ex, frame);
        for j in near.lo..near.hi {
            let held = levels.columns_at(d, j);
            let found = columns::deep(v, frame, j, held.meet(aside));
            raising::raise_row(map, frame.n, j, found, INSIDE);
        }
    }

    // keeps, as those of the next level, the columns of its rows that are open at its level and in which the strip is not away
    fn narrow(&self, levels: &mut Levels)
        requires fits { Fits self.now.frame.n levels.old }
        ensures kept { Narrowed self.now.frame self.now.v self.now.d self.now.rows levels.old levels.new }
    {
        let Node { v, frame, d, rows } = *self;
        let room = columns::room_of(v, frame);
        let aside = columns::reached(v.x, v.ex + frame.reach, frame);
        for j in rows.lo..rows.hi {
            let c = levels.columns_at(d, j).meet(aside);
            levels.put(d + 1, j, columns::kept(v, frame, room, j, c));
        }
    }

    // I where it is inside. Level d + 1 has then the columns in which it is not away: those for its halves, or of a leaf for D.
    fn visit(&self, map: &mut [u8], levels: &mut Levels)
        requires ready { Fits self.now.frame.n levels.old × (self.now.rows.hi * self.now.frame.n ≤ length map.old) }
        ensures cells { Drawn self.now.frame.n map.new map.old (λ i j. raised (among self.now.rows j && open_in levels.old self.now.d i j && inside_in self.now.frame self.now.v i j) 73) }
        ensures kept { Narrowed self.now.frame self.now.v self.now.d self.now.rows levels.old levels.new }
    {
        self.paint_deep(map, levels);
        self.narrow(levels);
    }
}

// raises the cells that are open at level d, in these rows, to D
fn paint_open(map: &mut [u8], levels: &Levels, n: usize, d: usize, rows: Span)
    requires ready { Fits n levels.now × (d < 12) × (rows.hi ≤ 256) × (rows.hi * n ≤ length map.old) }
    ensures cells { Drawn n map.new map.old (λ i j. raised (among rows j && open_in levels.now d i j) 68) }
{
    for j in rows.lo..rows.hi {
        raising::raise_row(map, n, j, levels.columns_at(d, j), DOUBTFUL);
    }
}

// ---- the walk

// A level of the walk: the place where it ends, and its rows.
#[derive(Clone, Copy)]
struct Band {
    end: usize,
    rows: Span,
}

// the last level up to d that has not ended at place `at`
fn level_at(bands: &[Band; 12], d: usize, at: usize) -> usize
    requires held { (d < 12) × (at < ends_of bands.now 0) }
    ensures last { (result ≤ d) × (at < ends_of bands.now result) × ((k : ℕ) → result < k → k ≤ d → ends_of bands.now k ≤ at) }
{
    for k in (1..d + 1).rev() {
        if at < bands[k].end {
            return k;
        }
    }
    0
}

// Raises the first `high` rows of the map to what the tree that part holds answers for their cells. Level d of `levels` has the columns in which
// every node that stands over the present one is not away, and ends where that node's subtree does.
pub fn draw_tree(map: &mut [u8], part: &[i32], frame: Frame, high: usize, levels: &mut Levels)
    requires tree { ShallowTree part.now }
    requires ready { FrameSized frame × (high ≤ frame.n) × (high * frame.n ≤ length map.old) × Fits frame.n levels.old × AllOpen frame.n high levels.old }
    ensures letters { (t : Tree) → AllSized t → depth t ≤ 10 → part.now ≡ flatten t → Drawn frame.n map.new map.old (λ i j x. cond (ltb j high) (max x (weight (explore (asked₁ frame i j) t))) x) }
    ensures levels { Fits frame.n levels.new × AllOpen frame.n high levels.new }
{
    let mut bands = [Band {
        end: part.len(),
        rows: Span { lo: 0, hi: high },
    }; 12];
    let mut d = 0;
    let mut at = 0;
    // no `for`: a place is stepped past by a node or by a whole subtree
    while at < part.len() {
        d = level_at(&bands, d, at);
        let n = nodes::count_at(part, at + COUNT);
        let v = columns::view_of(&part[at..], frame);
        let rows = bands[d]
            .rows
            .meet(columns::reached(v.y, v.ey + frame.reach, frame));
        let end = at + WIDTH * n;
        if rows.hi <= rows.lo {
            at = end;
            continue;
        }
        let node = Node { v, frame, d, rows };
        node.visit(map, levels);
        at += WIDTH;
        if n == 1 {
            paint_open(map, levels, frame.n, d + 1, rows);
        } else {
            d += 1;
            bands[d] = Band { end, rows };
        }
    }
}
