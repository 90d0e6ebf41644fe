// Squares of bytes that are held in rows of n, as many rows as there are: a stretch of bytes, of a row, of a square, filled with one byte.
#![tactic(auto)]

ghost use Rattle.std.specs.Prelude.{◌≡◌, ◌+◌, ◌*◌, ◌≤◌, length};
ghost use Rattle.sequences.specs.Stretches.{filled};
ghost use Rattle.filling.specs.Squares.{over, Drawn};

// w bytes from column c of row j become b
fn fill_row(map: &mut [u8], n: usize, j: usize, c: usize, w: usize, b: u8)
    requires within { (c + w ≤ n) × (j * n + n ≤ length map.old) }
    ensures stretch { map.new ≡ filled 0 map.old (j * n + c) w b }
{
    let start = j * n + c;
    map[start..start + w].fill(b);
}

// the square of w columns from column c and w rows from row r becomes b
#[tactic(auto, using(crate::proofs::Rows::row_end, crate::proofs::Rows::no_rows, crate::proofs::Rows::row_more))]
pub fn fill_square(map: &mut [u8], n: usize, c: usize, r: usize, w: usize, b: u8)
    requires within { (c + w ≤ n) × (r + w ≤ 256) × ((r + w) * n ≤ length map.old) }
    ensures square { Drawn n map.new map.old (over (λ i j. b) c r w) }
{
    for j in r..r + w {
        fill_row(map, n, j, c, w, b);
    }
}
