// What one strip says of one cell, in 64-bit numbers and with no square root. Taken apart into the tests of RULES, "Explore".
#![tactic(auto)]

ghost use Rattle.std.specs.Prelude.{◌≡◌};
ghost use Rattle.strip_tests.specs.Answers.{meaning};
ghost use Rattle.strip_tests.specs.PlainTests.{inside_by, apart_by, is_beyond, slanted_by, judge_by};
ghost use Rattle.strip_tests.specs.Limits.{SpanSized, CrossSized, NodeSized};

// What a strip says of a cell. In this order, joined, the later holds.
#[derive(Clone, Copy, Debug, PartialEq, Eq)]
pub enum Answer {
    Away,
    Maybe,
    Inside,
}

// Every point of the cell is nearer than the reach. This test and the next take plain numbers and no `Side`: `columns` asks them of a row's cells,
// whose numbers come from another view.
pub fn inside(ax: i64, ay: i64, ex: i64, ey: i64, r: i64) -> bool
    requires sizes { SpanSized ax ay ex ey r }
    ensures told { result ≡ inside_by ax ay ex ey r }
{
    let fx = ax + ex;
    let fy = ay + ey;
    let far = fx * fx + fy * fy;
    let reach = r * r;
    far < reach
}

// the upright boxes are the reach apart, or more
pub fn apart(ax: i64, ay: i64, ex: i64, ey: i64, r: i64) -> bool
    requires sizes { SpanSized ax ay ex ey r }
    ensures told { result ≡ apart_by ax ay ex ey r }
{
    let gx = (ax - ex).max(0);
    let gy = (ay - ey).max(0);
    let near = gx * gx + gy * gy;
    let reach = r * r;
    reach <= near
}

// no axis is longer than 2^30, and the square of a larger number would leave 64 bits
const LONGEST: i64 = 1 << 30;

// cross >= r * L, with L the root of pp rounded up: just where pp is at most the square of cross / r. low is a whole number up to L: most
// calls end at it, without a division. Across an axis (0, 0), and no other has squares that add up to 0, no cell is away; that is asked behind
// the division, which keeps pp off the way of most calls
fn beyond(cross: i64, r: i64, low: i64, pp: i64) -> bool
    requires sizes { CrossSized cross r low pp }
    ensures told { result ≡ is_beyond cross r pp }
{
    if cross < r * low {
        return false;
    }
    let k = (cross / r).min(LONGEST);
    let no_axis = pp == 0;
    !no_axis && pp <= k * k
}

// A strip as a cell sees it, in one coordinate: w from the strip's centre to the cell's, the axis, and half the box with the cell's half side.
#[derive(Clone, Copy)]
pub struct Side {
    pub w: i64,
    pub axis: i64,
    pub half: i64,
}

fn slanted(x: Side, y: Side, r: i64) -> bool
    requires sizes { NodeSized x.w y.w x.axis y.axis x.half y.half r }
    ensures told { result ≡ slanted_by x.w y.w x.axis y.axis x.half y.half r }
{
    let p = x.axis.abs();
    let q = y.axis.abs();
    let cross = (x.w * y.axis - y.w * x.axis).abs() - x.half * q - y.half * p;
    beyond(cross, r, p.max(q), x.axis * x.axis + y.axis * y.axis)
}

// the strip's answer
pub fn judge(x: Side, y: Side, r: i64) -> Answer
    requires sizes { NodeSized x.w y.w x.axis y.axis x.half y.half r }
    ensures answer { meaning result ≡ judge_by x.w y.w x.axis y.axis x.half y.half r }
{
    let ax = x.w.abs();
    let ay = y.w.abs();
    let ex = x.axis.abs() + x.half;
    let ey = y.axis.abs() + y.half;
    if inside(ax, ay, ex, ey, r) {
        Answer::Inside
    } else if apart(ax, ay, ex, ey, r) || slanted(x, y, r) {
        Answer::Away
    } else {
        Answer::Maybe
    }
}
