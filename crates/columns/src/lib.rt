// One strip and one row of a map's cells: the columns in which the strip is not away lie side by side, and so do those in which it is inside. Each
// is found from columns that are known to hold them all, by a walk in from both ends.
#![tactic(auto)]

ghost use Rattle.std.specs.Prelude.{◌≡◌, true, false, not, ◌&&◌, ℕ, ◌-◌, ◌≤◌, ◌<◌, T, pos, nat_abs, length};
ghost use Rattle.std.specs.Int.Signed.{le_z};
ghost use Rattle.integers.specs.Absolute.{absℤ};
ghost use Rattle.model.specs.Store.{width};
ghost use Rattle.ranges.specs.Sizes.{Sized};
ghost use Rattle.nodes.specs.Places.{strip_in};
ghost use Rattle.spans.specs.Among.{among};
ghost use Rattle.row_laws.specs.Columns.{off};
ghost use Rattle.row_laws.specs.Slanted.{along_q};
ghost use Rattle.columns.specs.Views.{view_of, away_in, inside_in, near_at, inside_at, across_at};
ghost use Rattle.columns.specs.Limits.{FrameSized, ViewSized, RoomFor};

use nodes::{X, Y, extent_at};
use spans::{Span, Step};

// Where rows of a map lie: cells a row, the lower left corner of the first row and half a smallest cell's side in fine units, the logarithm of
// the whole side, and the reach in fine units. `FrameSized` stands in the clauses, and in no ghost field: the definition `frame_of` of drawing makes
// a frame of any job, legal or not. Frame and view stay apart: one is the map's and the other a node's, and both in one would be made for each node.
#[derive(Clone, Copy)]
pub struct Frame {
    pub n: usize,
    pub x: i64,
    pub y: i64,
    pub q: i64,
    pub k: usize,
    pub reach: i64,
}

// A strip as seen from the middle of the frame's first cell: its centre, its axis, its box with half a smallest cell's side, and the half sides of
// the upright box around axis and box. `ViewSized` stands in the clauses, and in no ghost field: the definition `view_of` makes a view of any strip.
#[derive(Clone, Copy)]
pub struct View {
    pub x: i64,
    pub y: i64,
    pub p: i64,
    pub q: i64,
    pub a: i64,
    pub b: i64,
    pub ex: i64,
    pub ey: i64,
}

// the view of the first node of part
pub fn view_of(part: &[i32], frame: Frame) -> View
    requires sizes { (width ≤ length part.now) × Sized (strip_in part.now) × FrameSized frame }
    ensures view { result ≡ view_of frame (strip_in part.now) }
{
    let h = extent_at(part, X);
    let v = extent_at(part, Y);
    let a = h.half + frame.q;
    let b = v.half + frame.q;
    View {
        x: h.centre - (frame.x + frame.q),
        y: v.centre - (frame.y + frame.q),
        p: h.axis,
        q: v.axis,
        a,
        b,
        ex: h.axis.abs() + a,
        ey: v.axis.abs() + b,
    }
}

// from z to the middle of column i, both seen from the middle of the first column; of rows likewise
fn gap(i: usize, z: i64, frame: Frame) -> i64
    requires sizes { (i ≤ frame.n) × (nat_abs z ≤ 578813952) × FrameSized frame }
    ensures from { result ≡ off frame.q z (pos i) }
    ensures size { nat_abs result ≤ 1073741824 }
{
    2 * frame.q * i as i64 - z
}

// the columns, or rows, whose middles are no farther from z than e
pub fn reached(z: i64, e: i64, frame: Frame) -> Span
    requires sizes { (nat_abs z ≤ 578813952) × (nat_abs e ≤ 1073741824) × FrameSized frame }
    ensures near { (i : ℕ) → among result i ≡ le_z (absℤ (off frame.q z (pos i))) e }
{
    Step::PowerOfTwo(frame.k).around(z, e)
}

// ---- a walk in from both ends, to where a test holds

fn first_column<F: Fn(usize) -> bool>(c: Span, holds: &F) -> usize
    requires { (i : ℕ) → i < c.hi → F.pre holds.now i }
    ensures from { c.lo ≤ result }
    ensures before { (i : ℕ) → c.lo ≤ i → i < result → F.post holds.now i false }
    ensures there { result < c.hi → F.post holds.now result true }
{
    for i in c.lo..c.hi {
        if holds(i) {
            return i;
        }
    }
    c.lo.max(c.hi)
}

// where the columns end, from column lo on
fn end_column<F: Fn(usize) -> bool>(lo: usize, hi: usize, holds: &F) -> usize
    requires { (i : ℕ) → i < hi → F.pre holds.now i }
    ensures to { result ≤ hi }
    ensures behind { (i : ℕ) → lo ≤ i → result ≤ i → i < hi → F.post holds.now i false }
    ensures there { lo < result → F.post holds.now (result - 1) true }
{
    for last in (lo..hi).rev() {
        if holds(last) {
            return last + 1;
        }
    }
    lo.min(hi)
}

// c without the columns at either end in which the test does not hold
fn trimmed<F: Fn(usize) -> bool>(c: Span, holds: F) -> Span
    requires { (i : ℕ) → i < c.hi → F.pre holds i }
    ensures inner { (c.lo ≤ result.lo) × (result.hi ≤ c.hi) }
    ensures left { (i : ℕ) → c.lo ≤ i → i < result.lo → F.post holds i false }
    ensures right { (i : ℕ) → result.lo ≤ i → result.hi ≤ i → i < c.hi → F.post holds i false }
    ensures ends { result.lo < result.hi → F.post holds result.lo true × F.post holds (result.hi - 1) true }
{
    let lo = first_column(c, &holds);
    let hi = end_column(lo, c.hi, &holds);
    Span { lo, hi }
}

// ---- the two tests, in column i of the row w away from the strip

// not apart by the upright boxes
fn is_near(v: View, frame: Frame, w: i64, i: usize) -> bool
    requires sizes { ViewSized v × FrameSized frame × (nat_abs w ≤ 1073741824) × (i ≤ frame.n) }
    ensures told { result ≡ near_at frame v w i }
{
    !strip_tests::apart(gap(i, v.x, frame).abs(), w.abs(), v.ex, v.ey, frame.reach)
}

fn is_inside(v: View, frame: Frame, w: i64, i: usize) -> bool
    requires sizes { ViewSized v × FrameSized frame × (nat_abs w ≤ 1073741824) × (i ≤ frame.n) }
    ensures told { result ≡ inside_at frame v w i }
{
    strip_tests::inside(gap(i, v.x, frame).abs(), w.abs(), v.ex, v.ey, frame.reach)
}

// ---- the slanted test

// What the cross product may come to where the slanted test does not say away. An axis along x or y needs none.
pub fn room_of(v: View, frame: Frame) -> i64
    requires sizes { ViewSized v × FrameSized frame }
    ensures room { RoomFor frame v result }
{
    if v.p == 0 || v.q == 0 {
        return 0;
    }
    let ap = v.p.abs();
    let aq = v.q.abs();
    let length = lengths::length(ap as usize, aq as usize);
    v.a * aq + v.b * ap + frame.reach * length as i64 - 1
}

// p with the sign that makes the cross product |q| times a column's place, less what the columns share
fn along(p: i64, q: i64) -> i64
    requires sizes { nat_abs p ≤ 536870912 }
    ensures turned { result ≡ along_q p q }
{
    if q < 0 { -p } else { p }
}

// the columns of c in which the slanted test does not say away. Of an axis along x or y every one: what it says there the upright boxes say too
fn across(v: View, frame: Frame, room: i64, w: i64, c: Span) -> Span
    requires sizes { ViewSized v × FrameSized frame × RoomFor frame v room × (nat_abs w ≤ 1073741824) }
    ensures found { (i : ℕ) → among result i ≡ (among c i && across_at frame v w i) }
    ensures inner { result.hi ≤ c.hi }
{
    if v.p == 0 || v.q == 0 {
        return c;
    }
    let aq = v.q.abs();
    let u = w * along(v.p, v.q) + v.x * aq;
    let d = 2 * frame.q * aq;
    c.meet(Step::Length(d as usize).around(u, room))
}

// ---- both

// the columns of c in which the strip is not away from the cells of row j
pub fn kept(v: View, frame: Frame, room: i64, j: usize, c: Span) -> Span
    requires sizes { ViewSized v × FrameSized frame × RoomFor frame v room × (j ≤ frame.n) × (c.hi ≤ frame.n) }
    ensures found { (i : ℕ) → among result i ≡ (among c i && not (away_in frame v i j)) }
    ensures inner { result.hi ≤ c.hi }
{
    let w = gap(j, v.y, frame);
    let near = across(v, frame, room, w, c);
    trimmed(near, |i| is_near(v, frame, w, i))
}

// the columns of c in which the strip is inside the reach of the cells of row j
pub fn deep(v: View, frame: Frame, j: usize, c: Span) -> Span
    requires sizes { ViewSized v × FrameSized frame × (j ≤ frame.n) × (c.hi ≤ frame.n) }
    ensures found { (i : ℕ) → among result i ≡ (among c i && inside_in frame v i j) }
    ensures inner { result.hi ≤ c.hi }
{
    let w = gap(j, v.y, frame);
    trimmed(c, |i| is_inside(v, frame, w, i))
}
