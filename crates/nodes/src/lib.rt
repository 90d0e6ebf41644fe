// A node of a strip tree as it stands in a store: its numbers in a row, each at a place that has a name here and nowhere a bare number.
#![tactic(auto)]

ghost use Rattle.std.specs.Prelude.{◌≡◌, ◌≤◌, ◌<◌, T, pos, nat_abs, length, get_or, drop};
ghost use Rattle.std.specs.Int.Signed.{non_neg};
ghost use Rattle.model.specs.Store.{width, numbers};
ghost use Rattle.ranges.specs.Sizes.{SideSized};
ghost use Rattle.nodes.specs.Places.{side_in, with_side, span_in, with_span};
ghost use Rattle.nodes.specs.Structs.{side, as_strip, span, as_box};

// the numbers of a node
pub const WIDTH: usize = 11;

// the two coordinates
pub const X: usize = 0;

pub const Y: usize = 1;

// where a coordinate's numbers stand: x at the place, y one behind it
pub const CENTRE: usize = 0;

pub const AXIS: usize = 2;

pub const BOX: usize = 4;

// where the count of the subtree's nodes stands
pub const COUNT: usize = 6;

// where the least and the greatest number of the box around the leaves stand: x at the place, y one behind it
pub const LEAST: usize = 7;

pub const GREATEST: usize = 9;

// A strip in one coordinate: its centre, its axis and half its box.
#[derive(Clone, Copy, PartialEq, Eq)]
pub struct Extent {
    pub centre: i64,
    pub axis: i64,
    pub half: i64,
}

#[derive(Clone, Copy, PartialEq, Eq)]
pub struct Strip {
    pub x: Extent,
    pub y: Extent,
}

// A box in one coordinate. Its numbers are as the store has them, of 32 bits: of two stored boxes the lesser and the greater are stored ones too.
#[derive(Clone, Copy, PartialEq, Eq)]
pub struct Limits {
    pub least: i32,
    pub greatest: i32,
}

// A box whose sides are along x and y.
#[derive(Clone, Copy, PartialEq, Eq)]
pub struct Upright {
    pub x: Limits,
    pub y: Limits,
}

// ---- read

pub fn wide_at(s: &[i32], i: usize) -> i64
    requires within { i < length s.now }
    ensures element { result ≡ get_or s.now i (pos 0) }
{
    i64::from(s[i])
}

// A stored count. `as`, since it is proved not to be negative.
pub fn count_at(s: &[i32], i: usize) -> usize
    requires within { i < length s.now }
    requires sign { T (non_neg (get_or s.now i (pos 0))) }
    ensures element { result ≡ nat_abs (get_or s.now i (pos 0)) }
{
    s[i] as usize
}

// the strip of the first node of s in coordinate i
pub fn extent_at(s: &[i32], i: usize) -> Extent
    requires within { (i < 2) × (width ≤ length s.now) }
    ensures side { side result ≡ side_in s.now i }
{
    Extent {
        centre: wide_at(s, i + CENTRE),
        axis: wide_at(s, i + AXIS),
        half: wide_at(s, i + BOX),
    }
}

// the box of the first node of s in coordinate i
pub fn limits_at(s: &[i32], i: usize) -> Limits
    requires within { (i < 2) × (width ≤ length s.now) }
    ensures span { span result ≡ span_in s.now i }
{
    Limits {
        least: s[i + LEAST],
        greatest: s[i + GREATEST],
    }
}

// ---- put

// the strip's numbers of coordinate i, in the first node of s
fn put_side(s: &mut [i32], i: usize, v: Extent)
    requires sizes { (i < 2) × (width ≤ length s.old) × SideSized (side v) }
    ensures written { s.new ≡ with_side s.old i (side v) }
{
    s[i + CENTRE] = v.centre as i32;
    s[i + AXIS] = v.axis as i32;
    s[i + BOX] = v.half as i32;
}

// the box's numbers of coordinate i, in the first node of s
fn put_span(s: &mut [i32], i: usize, v: Limits)
    requires within { (i < 2) × (width ≤ length s.old) }
    ensures written { s.new ≡ with_span s.old i (span v) }
{
    s[i + LEAST] = v.least;
    s[i + GREATEST] = v.greatest;
}

// a node's numbers at the front of s, with its box
pub fn put(s: &mut [i32], strip: Strip, nodes: usize, upright: Upright)
    requires sizes { (width ≤ length s.old) × SideSized (side strip.x) × SideSized (side strip.y) × (nodes < 4096) }
    ensures written { s.new ≡ numbers (as_strip strip) nodes (as_box upright) (drop width s.old) }
{
    put_side(s, X, strip.x);
    put_side(s, Y, strip.y);
    s[COUNT] = nodes as i32;
    put_span(s, X, upright.x);
    put_span(s, Y, upright.y);
}
