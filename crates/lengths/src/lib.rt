// The length of an axis, rounded up to a whole number. Newton's steps give a guess, and two searches put any guess right, so that nothing has to be
// known of the steps but that they stay in their bounds.
#![tactic(auto)]

ghost use Rattle.std.specs.Prelude.{◌≡◌, ◌+◌, ◌*◌, ◌≤◌, ◌<◌};
ghost use Rattle.model.specs.Roots.{root};
ghost use Rattle.lengths.specs.declared.TheConstants.{LONGEST};

// no axis is longer than 2^30
const LONGEST: usize = 1 << 30;

// A guess and the square whose root is sought are plain numbers: a struct of the two would be no plainer.

// a whole number from x on whose square is at least v
fn up_from(x: usize, v: usize) -> usize
    requires sizes { (x ≤ LONGEST) × (v ≤ 1152921504606846976) }
    ensures reaches { (v ≤ result * result) × (result ≤ LONGEST) }
{
    (x..LONGEST).find(|r| v <= r * r).unwrap_or(LONGEST)
}

// the least whole number whose square is at least v, from one that is large enough
#[tactic(auto, using(crate::proofs::Found::root_found))]
fn down_from(x: usize, v: usize) -> usize
    requires reaches { (v ≤ x * x) × (x ≤ LONGEST) }
    ensures least { result ≡ root v }
{
    for less in (0..x).rev() {
        if less * less < v {
            return less + 1;
        }
    }
    0
}

// Newton's step toward the root of v, and one more, so that it is not 0
fn better(x: usize, v: usize) -> usize
    requires sizes { (0 < x) × (x ≤ 2305843009213693952) × (v ≤ 1152921504606846976) }
    ensures sizes { (0 < result) × (result ≤ 2305843009213693952) }
{
    (x + v / x) / 2 + 1
}

// The length of an axis with these parts, rounded up.
#[tactic(auto, using(crate::proofs::Found::short, crate::proofs::Found::small))]
pub fn length(p: usize, q: usize) -> usize
    requires sizes { (p ≤ 536870912) × (q ≤ 536870912) }
    ensures length { result ≡ root (p * p + q * q) }
    ensures size { result ≤ 1073741824 }
{
    let v = p * p + q * q;
    // within an eighth of the length: the longer part and half the shorter one
    let first = p.max(q) + p.min(q) / 2 + 1;
    let guess = better(better(first, v), v).min(LONGEST);
    down_from(up_from(guess, v), v)
}
