// Upright boxes: a strip's, the one around two, and how near and how far a point is from a stored one. RULES, "Boxes" and "Distance".
#![tactic(auto)]

ghost use Rattle.std.specs.Prelude.{◌≡◌, ◌≤◌, ◌<◌, nat_abs, length};
ghost use Rattle.model.specs.Boxes.{span_of, upright, spanning, around};
ghost use Rattle.model.specs.Store.{width};
ghost use Rattle.model.specs.Explore.{squares};
ghost use Rattle.model.specs.Distance.{near², far²};
ghost use Rattle.ranges.specs.Sizes.{SideSized, Sized, SpanSized, BoxSized};
ghost use Rattle.nodes.specs.Places.{span_in, box_in};
ghost use Rattle.nodes.specs.Structs.{side, as_strip, span, as_box};
ghost use Rattle.boxes.specs.Ranges.{point_at, RangeOf};

use nodes::{Extent, Limits, Strip, Upright, X, Y};

// How near and how far the points of an upright box are in one coordinate.
#[derive(Clone, Copy)]
pub struct Range {
    pub near: i32,
    pub far: i32,
}

// The least and the greatest squared distance to the points of an upright box.
#[derive(Clone, Copy)]
pub struct Bounds {
    pub lo: i64,
    pub hi: i64,
}

// ---- made

// a strip's, in one coordinate
fn limits_of(v: Extent) -> Limits
    requires sizes { SideSized (side v) }
    ensures span { span result ≡ span_of (side v) }
{
    let reach = v.axis.abs() + v.half;
    Limits {
        least: (v.centre - reach) as i32,
        greatest: (v.centre + reach) as i32,
    }
}

// a strip's
pub fn upright(strip: Strip) -> Upright
    requires sizes { Sized (as_strip strip) }
    ensures upright { as_box result ≡ upright (as_strip strip) }
{
    Upright {
        x: limits_of(strip.x),
        y: limits_of(strip.y),
    }
}

// the smallest around two, in one coordinate
fn spanning(a: Limits, b: Limits) -> Limits
    ensures span { span result ≡ spanning (span a) (span b) }
{
    Limits {
        least: a.least.min(b.least),
        greatest: a.greatest.max(b.greatest),
    }
}

// the smallest around two
pub fn around(a: Upright, b: Upright) -> Upright
    ensures around { as_box result ≡ around (as_box a) (as_box b) }
{
    Upright {
        x: spanning(a.x, b.x),
        y: spanning(a.y, b.y),
    }
}

// ---- asked, of a point in fine units

// in one coordinate, of the point c and a box
fn range_of(limits: Limits, c: i32) -> Range
    requires sizes { SpanSized (span limits) × (nat_abs c ≤ 16000000) }
    ensures range { RangeOf c (span limits) result }
{
    let Limits { least, greatest } = limits;
    Range {
        near: (least - c).max(c - greatest).max(0),
        far: (c - least).max(greatest - c),
    }
}

fn sum_of_squares(x: i64, y: i64) -> i64
    requires sizes { (nat_abs x ≤ 1223959552) × (nat_abs y ≤ 1223959552) }
    ensures sum { result ≡ squares x y }
{
    x * x + y * y
}

// of the point (x, y) and the first node of part
pub fn bounds_at(part: &[i32], x: i32, y: i32) -> Bounds
    requires sizes { (width ≤ length part.now) × BoxSized (box_in part.now) × (nat_abs x ≤ 16000000) × (nat_abs y ≤ 16000000) }
    ensures low { result.lo ≡ near² (point_at x y) (box_in part.now) }
    ensures high { result.hi ≡ far² (point_at x y) (box_in part.now) }
{
    let h = range_of(nodes::limits_at(part, X), x);
    let v = range_of(nodes::limits_at(part, Y), y);
    Bounds {
        lo: sum_of_squares(i64::from(h.near), i64::from(v.near)),
        hi: sum_of_squares(i64::from(h.far), i64::from(v.far)),
    }
}
