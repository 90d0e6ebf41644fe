// The lookup of a point: the bounds of its squared distance, from the strip trees in a store. RULES, "Distance" and "Lookup".
#![tactic(auto)]

ghost use Rattle.std.specs.Prelude.{◌≡◌, List, ◌+◌, ◌*◌, ◌^◌, ◌≤◌, ◌<◌, nat_abs, length};
ghost use Rattle.model.specs.Trees.{Tree};
ghost use Rattle.model.specs.Store.{width, flatten};
ghost use Rattle.model.specs.Lookup.{visit, lookup};
ghost use Rattle.ranges.specs.Sizes.{AllSized};
ghost use Rattle.subtrees.specs.Fronts.{Holds, TreesOf};
ghost use Rattle.subtrees.specs.Pending.{TreeOf};
ghost use Rattle.boxes.specs.Ranges.{point_at};
ghost use Rattle.distance.specs.States.{state, Taken};

use boxes::Bounds;
use nodes::{COUNT, WIDTH};

// What a lookup has found so far: the bounds, the first edge that attains hi, and how many nodes it has read.
#[derive(Clone, Copy)]
pub struct Found {
    pub lo: i64,
    pub hi: i64,
    pub edge: usize,
    pub reads: usize,
}

// stands for the bounds before the first leaf: 2^62 is above the least bounds of every tree of a legal job for a point in range (`least_below`)
const NONE: i64 = 1 << 62;

// ---- one leaf

impl Found {
    // with the bounds of a leaf of the edge
    fn with_leaf(self, leaf: Bounds, edge: usize) -> Found
        ensures taken { Taken self leaf edge result }
    {
        let lo = self.lo.min(leaf.lo);
        let falls = leaf.hi < self.hi;
        if falls {
            Found {
                lo,
                hi: leaf.hi,
                edge,
                ..self
            }
        } else {
            Found { lo, ..self }
        }
    }
}

// ---- one tree

// Over the tree of the edge that part holds, from what was found before it, one node after the other in store order. One whose box is no nearer
// than hi is stepped past with its subtree; of any other a leaf gives its bounds, and the halves of one that is no leaf stand right behind it.
fn look_through(part: &[i32], edge: usize, x: i32, y: i32, before: Found) -> Found
    requires held { TreeOf part.now × (nat_abs x ≤ 16000000) × (nat_abs y ≤ 16000000) × (before.reads < 2 ^ 62) }
    ensures found { (t : Tree) → AllSized t → part.now ≡ flatten t → state result ≡ visit (point_at x y) edge t (state before) }
    ensures few { width * result.reads ≤ width * before.reads + length part.now }
{
    let mut found = before;
    let mut rest = part;
    // no `for`: how far the next node lies is told by this one
    while !rest.is_empty() {
        let bounds = boxes::bounds_at(rest, x, y);
        let n = nodes::count_at(rest, COUNT);
        found.reads += 1;
        if found.hi <= bounds.lo {
            rest = &rest[WIDTH * n..];
        } else {
            rest = &rest[WIDTH..];
            let leaf = n == 1;
            if leaf {
                found = found.with_leaf(bounds, edge);
            }
        }
    }
    found
}

// ---- a job's trees. The count is the job's, and x and y are the entries' own: structs of them would be made only to be taken apart.

// Of the point (x, y), over a job's trees, with which the store begins: each is a part by itself, and ends where its count says.
pub fn nearest(store: &[i32], count: usize, x: i32, y: i32) -> Found
    requires held { TreesOf store.now count × (nat_abs x ≤ 1000000) × (nat_abs y ≤ 1000000) }
    ensures found { (ts : List Tree) → Holds store.now count ts → state result ≡ lookup ts x y }
{
    let mut found = Found {
        lo: NONE,
        hi: NONE,
        edge: 0,
        reads: 0,
    };
    let mut rest = store;
    for edge in 0..count {
        let n = nodes::count_at(rest, COUNT);
        let (part, behind) = rest.split_at(WIDTH * n);
        found = look_through(part, edge, 16 * x, 16 * y, found);
        rest = behind;
    }
    found
}
