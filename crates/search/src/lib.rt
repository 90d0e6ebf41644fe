// A cell's answer from one edge's part of the store, by one loop over its nodes.
#![tactic(auto)]

ghost use Rattle.std.specs.Prelude.{◌≡◌, ◌≤◌, ◌<◌, ℤ, nat_abs, ◌+ℤ◌, ◌-ℤ◌, T, length};
ghost use Rattle.std.specs.Int.Signed.{non_neg};
ghost use Rattle.model.specs.Trees.{Tree};
ghost use Rattle.model.specs.Store.{width, flatten};
ghost use Rattle.model.specs.Explore.{judged, explore};
ghost use Rattle.ranges.specs.Sizes.{SideSized, Sized, AllSized};
ghost use Rattle.strip_tests.specs.Answers.{meaning};
ghost use Rattle.strip_tests.specs.PlainTests.{code};
ghost use Rattle.nodes.specs.Places.{strip_in};
ghost use Rattle.nodes.specs.Structs.{side as side_of};
ghost use Rattle.subtrees.specs.Pending.{TreeOf};
ghost use Rattle.search.specs.Probes.{CellSized, cell_at, judged_by, Enough, Fair};

use nodes::{COUNT, Extent, WIDTH, X, Y, count_at, extent_at};
use strip_tests::{Answer, Side};

// What a cell asks of every strip: the cell's centre and half side and the reach, in fine units, and the answer above which no strip goes.
#[derive(Clone, Copy)]
pub struct Probe {
    pub x: i64,
    pub y: i64,
    pub s: i64,
    pub r: i64,
    pub enough: Answer,
}

// maybe where the cell alone is too wide for a strip to be inside
fn enough_for(s: i64, r: i64) -> Answer
    requires sizes { (nat_abs s ≤ 134217728) × T (non_neg s) × (nat_abs r ≤ 16777216) }
    ensures stop { (x y : ℤ) → Enough x y s r (code (meaning result)) }
{
    let near = r * r;
    let wide = 2 * s * s;
    let too_wide = near <= wide;
    if too_wide {
        Answer::Maybe
    } else {
        Answer::Inside
    }
}

// the probe of the cell at (x, y) of half side s
pub fn probe_of(x: i64, y: i64, s: i64, r: i64) -> Probe
    requires sizes { CellSized x y s r }
    ensures fair { Fair result }
    ensures cell { judged_by result ≡ judged r (cell_at x y s) }
{
    let enough = enough_for(s, r);
    Probe { x, y, s, r, enough }
}

// e from a cell whose middle is at `at` and whose half side is s
fn side(e: Extent, at: i64, s: i64) -> Side
    requires sizes { SideSized (side_of e) × (nat_abs at ≤ 536870912) × (nat_abs s ≤ 134217728) }
    ensures side { result ≡ record { w = at -ℤ e.centre; axis = e.axis; half = e.half +ℤ s } }
{
    Side {
        w: at - e.centre,
        axis: e.axis,
        half: e.half + s,
    }
}

// the answer of the first node of part by itself
fn own(part: &[i32], probe: Probe) -> Answer
    requires sizes { (width ≤ length part.now) × Sized (strip_in part.now) × Fair probe }
    ensures answer { meaning result ≡ judged_by probe (strip_in part.now) }
{
    let x = side(extent_at(part, X), probe.x, probe.s);
    let y = side(extent_at(part, Y), probe.y, probe.s);
    strip_tests::judge(x, y, probe.r)
}

// the answer of the tree that part holds, from one node after the other in store order. One that is inside ends the walk, and one that is away is
// stepped past with its subtree. Of those that are maybe a leaf is noted, or ends the walk where no strip goes above maybe, and the halves of any
// other stand right behind it
pub fn search(part: &[i32], probe: Probe) -> Answer
    requires held { TreeOf part.now × Fair probe }
    ensures answer { (t : Tree) → AllSized t → part.now ≡ flatten t → meaning result ≡ explore (judged_by probe) t }
{
    let settles = probe.enough == Answer::Maybe;
    let mut found = Answer::Away;
    let mut rest = part;
    // no `for`: how far the next node lies is told by this one's answer
    while !rest.is_empty() {
        let nodes = count_at(rest, COUNT);
        let subtree = WIDTH * nodes;
        let step = match own(rest, probe) {
            Answer::Inside => return Answer::Inside,
            Answer::Away => subtree,
            // maybe: `_` and not its name, since an edit lets a node that is inside come here
            _ => {
                let leaf = nodes == 1;
                if leaf {
                    if settles {
                        return Answer::Maybe;
                    }
                    found = Answer::Maybe;
                }
                WIDTH
            }
        };
        rest = &rest[step..];
    }
    found
}
