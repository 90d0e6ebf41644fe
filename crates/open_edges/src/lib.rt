// The edges that are open for a cell: where their trees start in the store, and the loop that asks each of them and keeps those that are not
// away, so that no part of the cell asks them again.
#![tactic(auto)]

ghost use Rattle.std.specs.Prelude.{◌≡◌, List, ◌≤◌, length};
ghost use Rattle.model.specs.Trees.{Tree};
ghost use Rattle.model.specs.Explore.{explore};
ghost use Rattle.strip_tests.specs.Answers.{meaning};
ghost use Rattle.search.specs.Probes.{judged_by, Fair};
ghost use Rattle.subtrees.specs.Fronts.{Holds, TreesOf};
ghost use Rattle.subtrees.specs.At.{At};
ghost use Rattle.open_edges.specs.Starts.{TreeAt, Starts, Forest};
ghost use Rattle.open_edges.specs.Sees.{Sees};

use nodes::{COUNT, WIDTH, count_at};
use search::Probe;
use strip_tests::Answer;

// the answer of the tree that starts at place a
fn ask(store: &[i32], a: usize, probe: Probe) -> Answer
    requires held { TreeAt store.now a × Fair probe }
    ensures answer { (t : Tree) → At store.now a t → meaning result ≡ explore (judged_by probe) t }
{
    let nodes = count_at(store, a + COUNT);
    search::search(&store[a..a + WIDTH * nodes], probe)
}

// What open trees tell of a cell: that one is inside, or how many are not away.
#[derive(Clone, Copy, Debug, PartialEq, Eq)]
pub enum Seen {
    Inside,
    Open(usize),
}

// asks the trees that start at the places of list, and keeps the places of those that are not away: in an array that is lent, since there is no heap
#[tactic(auto, using(crate::proofs::Looking::all_looked))]
pub fn explore_open(store: &[i32], list: &[usize], keep: &mut [usize; 64], probe: Probe) -> Seen
    requires held { (length list.now ≤ 64) × Forest store.now list.now × Fair probe }
    ensures seen { Sees (judged_by probe) store.now list.now keep.new result }
{
    let mut kept = 0;
    for &start in list {
        match ask(store, start, probe) {
            Answer::Inside => return Seen::Inside,
            Answer::Away => {}
            Answer::Maybe => {
                keep[kept] = start;
                kept += 1;
            }
        }
    }
    Seen::Open(kept)
}

// where each edge's tree starts, from the subtree counts: as many as list has room for
pub fn list_starts(store: &[i32], list: &mut [usize])
    requires held { TreesOf store.now (length list.old) }
    ensures starts { (ts : List Tree) → Holds store.now (length list.old) ts → Starts store.now list.new ts }
{
    let mut at = 0;
    for start in list.iter_mut() {
        *start = at;
        at += WIDTH * count_at(store, at + COUNT);
    }
}
