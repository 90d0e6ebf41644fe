// Bytes that only grow: a stretch of a row of n bytes raised to a byte where it is below it.
#![tactic(auto)]

ghost use Rattle.std.specs.Prelude.{◌≡◌, ◌&&◌, ℕ, ◌+◌, ◌*◌, ◌≤◌, ◌<◌, max, eqb, length, get_or};
ghost use Rattle.spans.specs.Among.{among};
ghost use Rattle.filling.specs.Squares.{Drawn};
ghost use Rattle.raising.specs.Raised.{raised};

use spans::Span;

// every byte of s below b becomes b
fn raise(s: &mut [u8], b: u8)
    ensures larger { (k : ℕ) → k < length s.old → get_or s.new k 0 ≡ max (get_or s.old k 0) b }
{
    for x in s.iter_mut() {
        *x = (*x).max(b);
    }
}

// the columns c of row j, of rows of n bytes
pub fn raise_row(map: &mut [u8], n: usize, j: usize, c: Span, b: u8)
    requires within { (c.hi ≤ n) × (j * n + n ≤ length map.old) }
    ensures stretch { Drawn n map.new map.old (λ i y. raised (eqb y j && among c i) b) }
{
    if c.lo < c.hi {
        let row = j * n;
        raise(&mut map[row + c.lo..row + c.hi], b);
    }
}
