// The open columns of up to 256 rows at each of twelve levels.
#![tactic(auto)]

ghost use Rattle.std.specs.Prelude.{◌≡◌, ℕ, ◌≤◌, ◌<◌, get_or};
ghost use Rattle.levels.specs.Open.{place_of, closed, span_in, normal_of, Fits};

use spans::Span;
use std::marker::Model;

// Where a row's open columns begin and end, in little room.
#[derive(Clone, Copy)]
struct Ends {
    lo: u16,
    hi: u16,
}

// Seen as the list of stretches, the rows of a level one after the other.
#[derive(Drop)]
pub struct Levels {
    ends: [Ends; 3072],
}

impl Model for Levels {
    ghost use Rattle.std.specs.Prelude.{List, map};
    ghost use Rattle.spans.specs.declared.Span.{Span};

    ghost Value = { List Span };

    ghost use Rattle.levels.specs.Kept.{span_of};

    ghost view = { λ l. map span_of l.ends };
}

// A level and a row are two small numbers: a struct would only name them once more.
fn place(d: usize, j: usize) -> usize
    requires within { (d < 12) × (j < 256) }
    ensures place { result ≡ place_of d j }
{
    256 * d + j
}

// c, or where it is empty the first such stretch, so that its ends are small
fn normal(c: Span) -> Span
    ensures same { result ≡ normal_of c }
{
    if c.lo < c.hi {
        c
    } else {
        Span { lo: 0, hi: 0 }
    }
}

impl Levels {
    // all closed
    pub fn new() -> Levels
        ensures closed { (k : ℕ) → get_or result k closed ≡ closed }
    {
        Levels {
            ends: [Ends { lo: 0, hi: 0 }; 3072],
        }
    }

    // the open columns of row j at level d
    pub fn columns_at(&self, d: usize, j: usize) -> Span
        requires within { (d < 12) × (j < 256) }
        ensures columns { result ≡ span_in self.now d j }
    {
        let ends = self.ends[place(d, j)];
        Span {
            lo: usize::from(ends.lo),
            hi: usize::from(ends.hi),
        }
    }

    // makes c the open columns of row j at level d
    #[tactic(auto, using(crate::specs::Open::normal_most))]
    pub fn put(&mut self, d: usize, j: usize, c: Span)
        requires within { (d < 12) × (j < 256) × (c.hi ≤ 256) }
        ensures columns { span_in self.new d j ≡ normal_of c }
        ensures others { (k : ℕ) → (k ≡ place_of d j → ⊥) → get_or self.new k closed ≡ get_or self.old k closed }
    {
        let kept = normal(c);
        self.ends[place(d, j)] = Ends {
            lo: kept.lo as u16,
            hi: kept.hi as u16,
        };
    }

    // opens every column of the first `rows` rows, at level 0
    #[tactic(auto, using(crate::proofs::Kept::more_open, crate::proofs::Kept::still_fits))]
    pub fn open_all(&mut self, n: usize, rows: usize)
        requires within { (n ≤ 256) × (rows ≤ 256) × Fits n self.old }
        ensures fits { Fits n self.new }
        ensures columns { (j : ℕ) → j < rows → span_in self.new 0 j ≡ record { lo = 0; hi = n } }
    {
        for j in 0..rows {
            self.put(0, j, Span { lo: 0, hi: n });
        }
    }
}
