// Columns, or rows, that lie side by side: those that two stretches share, and those whose middles are no farther from a place than a distance.
#![tactic(auto)]

ghost use Rattle.std.specs.Prelude.{◌≡◌, ◌&&◌, ℕ, ◌*◌, ◌/◌, ◌≤◌, ltb, leb, pos, nat_abs, ◌-ℤ◌};
ghost use Rattle.std.specs.Int.Signed.{le_z};
ghost use Rattle.integers.specs.Absolute.{absℤ};
ghost use Rattle.spans.specs.Among.{among, length_of, StepSized};

// From lo to below hi. None where hi is not above lo.
#[derive(Clone, Copy)]
pub struct Span {
    pub lo: usize,
    pub hi: usize,
}

impl Span {
    // What two stretches share.
    pub fn meet(self, other: Span) -> Span
        ensures shared { (i : ℕ) → among result i ≡ (among self i && among other i) }
        ensures inner { (self.lo ≤ result.lo) × (result.hi ≤ self.hi) × (other.lo ≤ result.lo) × (result.hi ≤ other.hi) }
    {
        Span {
            lo: self.lo.max(other.lo),
            hi: self.hi.min(other.hi),
        }
    }
}

// How far apart places lie: a length or, where that is a power of two, its logarithm. `StepSized` stands in the clauses, since an enum holds no
// ghost field, and a struct around it would be no plainer.
#[derive(Clone, Copy)]
pub enum Step {
    Length(usize),
    PowerOfTwo(usize),
}

impl Step {
    // n / d for steps of length d. By a power of two it is a shift.
    fn divides(self, n: usize) -> usize
        requires { StepSized self }
        ensures { result ≡ n / length_of self }
    {
        match self {
            Step::Length(d) => n / d,
            Step::PowerOfTwo(k) => n >> k,
        }
    }

    // The first i with v ≤ d · i.
    #[tactic(auto, using(crate::proofs::Ends::from_law))]
    fn first_from(self, v: i64) -> usize
        requires step { StepSized self }
        requires size { nat_abs v ≤ 4611686018427387904 }
        ensures { (i : ℕ) → leb result i ≡ le_z v (pos (length_of self * i)) }
    {
        if v <= 0 {
            return 0;
        }
        self.divides((v - 1) as usize) + 1
    }

    // The first i with v < d · i.
    #[tactic(auto, using(crate::proofs::Ends::above_law))]
    fn first_above(self, v: i64) -> usize
        requires step { StepSized self }
        requires size { nat_abs v ≤ 4611686018427387904 }
        ensures { (i : ℕ) → ltb i result ≡ le_z (pos (length_of self * i)) v }
    {
        if v < 0 {
            return 0;
        }
        self.divides(v as usize) + 1
    }

    // Each i for which d · i is no farther from u than e. Two quotients: u − e rounded up and u + e rounded down.
    pub fn around(self, u: i64, e: i64) -> Span
        requires sizes { (nat_abs u ≤ 2305843009213693952) × (nat_abs e ≤ 1152921504606846976) × StepSized self }
        ensures near { (i : ℕ) → among result i ≡ le_z (absℤ (pos (length_of self * i) -ℤ u)) e }
    {
        Span {
            lo: self.first_from(u - e),
            hi: self.first_above(u + e),
        }
    }
}
