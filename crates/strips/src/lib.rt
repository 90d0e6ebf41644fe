// The power form of an edge, and the strip of a piece of it, in 64-bit numbers. RULES, "Strips".
#![tactic(auto)]

ghost use Rattle.std.specs.Prelude.{◌≡◌, ◌≤◌, ◌<◌, ◌*◌, T, pos, nat_abs};
ghost use Rattle.std.specs.Int.Signed.{non_neg};
ghost use Rattle.model.specs.Jobs.{cubic, line};
ghost use Rattle.model.specs.Strips.{a0, a1, a2, numerators, pad_of, straight, curved, side_at, fits, short};
ghost use Rattle.ranges.specs.Sizes.{grain_most, CubicSized, LineSized, SideSized, Sized};
ghost use Rattle.ranges.specs.PowerForm.{FormSized, n_most, cube_most, a0_most, a1_most, a2_most, second_most, third_most, pad_most};
ghost use Rattle.subtrees.specs.Subtrees.{PieceAt};
ghost use Rattle.nodes.specs.Structs.{side, as_strip};
ghost use Rattle.strips.specs.Structs.{form, linear, strips_of, ShapeSized, tops, TopsSized, left, left_all, padded, RoundedAll, curved_both};

use nodes::{Extent, Strip};
use rounding::Quotient;

// A cubic in one coordinate.
#[derive(Clone, Copy)]
pub struct Power {
    pub c0: i64,
    pub c1: i64,
    pub c2: i64,
    pub c3: i64,
}

// A line in one coordinate: its power form ends with c1.
#[derive(Clone, Copy)]
pub struct Linear {
    pub c0: i64,
    pub c1: i64,
}

// What an edge's strips are made from: its power form in both coordinates. Code over pieces hands it on and looks no further.
#[derive(Clone, Copy)]
pub enum Shape {
    Line { x: Linear, y: Linear },
    Cubic { x: Power, y: Power },
}

// A cubic's four coefficients in one coordinate of a piece: as numerators, times N³, or as their rounded quotients by N³.
#[derive(Clone, Copy)]
struct Coefficients<T> {
    centre: T,
    axis: T,
    second: T,
    third: T,
}

// A piece's strip, and whether it is short. No Option: the strip is taken either way.
#[derive(Clone, Copy)]
pub struct Piece {
    pub strip: Strip,
    pub short: bool,
}

// the depth of the smallest pieces
pub const DEEPEST: usize = 10;

pub fn power_form(b0: i64, b1: i64, b2: i64, b3: i64) -> Power
    requires sizes { CubicSized b0 b1 b2 b3 }
    ensures sides { curved (form result) ≡ side_at (cubic b0 b1 b2 b3) }
    ensures sized { FormSized (form result) }
{
    Power {
        c0: b0,
        c1: 3 * (b1 - b0),
        c2: 3 * (b0 - 2 * b1 + b2),
        c3: b3 - 3 * b2 + 3 * b1 - b0,
    }
}

// of the line from a to b
pub fn line_form(a: i64, b: i64) -> Linear
    requires sizes { LineSized a b }
    ensures sides { straight result.c0 result.c1 ≡ side_at (line a b) }
    ensures sized { FormSized (linear result) }
{
    Linear { c0: a, c1: b - a }
}

// ---- a cubic's a0 to a2, of the piece with N = n and the middle m; a3 is c3. Each says how large it is: a caller multiplies it.
// They take c, n and m as the definitions do: a struct of the three would be no plainer.

fn a0_of(c: Power, n: i64, m: i64) -> i64
    requires sizes { FormSized (form c) × (nat_abs n ≤ n_most) × (nat_abs m ≤ n_most) }
    ensures a0 { (result ≡ a0 (form c) n m) × (nat_abs result ≤ a0_most) }
{
    c.c0 * (n * n * n) + c.c1 * (n * n) * m + c.c2 * n * (m * m) + c.c3 * (m * m * m)
}

fn a1_of(c: Power, n: i64, m: i64) -> i64
    requires sizes { FormSized (form c) × (nat_abs n ≤ n_most) × (nat_abs m ≤ n_most) }
    ensures a1 { (result ≡ a1 (form c) n m) × (nat_abs result ≤ a1_most) }
{
    c.c1 * (n * n) + 2 * c.c2 * n * m + 3 * c.c3 * (m * m)
}

fn a2_of(c: Power, n: i64, m: i64) -> i64
    requires sizes { FormSized (form c) × (nat_abs n ≤ n_most) × (nat_abs m ≤ n_most) }
    ensures a2 { (result ≡ a2 (form c) n m) × (nat_abs result ≤ a2_most) }
{
    c.c2 * n + 3 * c.c3 * m
}

// ---- its four numerators over N³, a power of two; their quotients; the pad and the strip in one coordinate

fn numerators_of(c: Power, n: i64, m: i64) -> Coefficients<i64>
    requires sizes { FormSized (form c) × (nat_abs n ≤ n_most) × (nat_abs m ≤ n_most) }
    ensures numerators { tops result ≡ numerators (form c) n m }
    ensures sized { TopsSized (tops result) }
{
    let a0 = a0_of(c, n, m);
    let a1 = a1_of(c, n, m);
    let a2 = a2_of(c, n, m);
    let a3 = c.c3;
    Coefficients {
        centre: 16 * a0 + 8 * a2,
        axis: 16 * a1 + 12 * a3,
        second: 8 * a2,
        third: 4 * a3,
    }
}

fn quotients_of(t: Coefficients<i64>, cube: i64) -> Coefficients<Quotient>
    requires sizes { TopsSized (tops t) × (nat_abs cube ≤ cube_most) × (0 < nat_abs cube) × T (non_neg cube) }
    ensures quotients { RoundedAll result (tops t) (nat_abs cube) }
{
    Coefficients {
        centre: rounding::rounded(t.centre, cube),
        axis: rounding::rounded(t.axis, cube),
        second: rounding::rounded(t.second, cube),
        third: rounding::rounded(t.third, cube),
    }
}

// 1 for a quotient that was rounded
fn slack(q: Quotient) -> u8
    ensures slack { result ≡ left q }
    ensures small { result ≤ 1 }
{
    u8::from(!q.whole)
}

// a half for each quotient that was rounded, up to a whole number
fn pad_of(q: Coefficients<Quotient>) -> u8
    ensures pad { result ≡ pad_of (left_all q) }
    ensures small { result ≤ pad_most }
{
    let count = slack(q.centre) + slack(q.axis) + slack(q.second) + slack(q.third);
    count.div_ceil(2)
}

fn extent_of(q: Coefficients<Quotient>, pad: u8) -> Extent
    requires sizes { (nat_abs q.second.nearest ≤ second_most) × (nat_abs q.third.nearest ≤ third_most) × (pad ≤ pad_most) }
    ensures strip { side result ≡ padded q pad }
{
    Extent {
        centre: q.centre.nearest,
        axis: q.axis.nearest,
        half: q.second.nearest.abs() + q.third.nearest.abs() + i64::from(pad),
    }
}

// ---- the strip of a piece, with N = n and the middle m

// a line's in one coordinate, by two quotients by N
fn straight_of(c: Linear, n: usize, m: usize) -> Extent
    requires sizes { FormSized (linear c) × (2 ≤ n) × (n ≤ n_most) × (m ≤ n) }
    ensures strip { side result ≡ straight c.c0 c.c1 n m }
{
    let n = n as i64;
    let m = m as i64;
    let centre = rounding::rounded(16 * (c.c0 * n + c.c1 * m), n);
    let axis = rounding::rounded(16 * c.c1, n);
    Extent {
        centre: centre.nearest,
        axis: axis.nearest,
        half: i64::from(slack(centre) + slack(axis)),
    }
}

// a cubic's, where each coordinate has its own pad
fn curved_of(p: Power, q: Power, n: usize, m: usize) -> Strip
    requires sizes { FormSized (form p) × FormSized (form q) × (2 ≤ n) × (n ≤ n_most) × (m ≤ n) }
    ensures strip { as_strip result ≡ curved_both p q n m }
{
    let n = n as i64;
    let m = m as i64;
    let cube = n * n * n;
    let x = quotients_of(numerators_of(p, n, m), cube);
    let y = quotients_of(numerators_of(q, n, m), cube);
    Strip {
        x: extent_of(x, pad_of(x)),
        y: extent_of(y, pad_of(y)),
    }
}

// of piece k of depth d
fn strip_of(shape: Shape, d: usize, k: usize) -> Strip
    requires sizes { ShapeSized shape × PieceAt d k }
    ensures strip { as_strip result ≡ strips_of shape d k }
    ensures sized { Sized (as_strip result) }
{
    let n: usize = 2 << d;
    let m = 2 * k + 1;
    match shape {
        Shape::Line { x, y } => Strip {
            x: straight_of(x, n, m),
            y: straight_of(y, n, m),
        },
        Shape::Cubic { x, y } => curved_of(x, y, n, m),
    }
}

// ---- short: no upright box half above 16 grains

fn fits(s: Extent, grain: i64) -> bool
    requires sizes { SideSized (side s) × (nat_abs grain ≤ grain_most) }
    ensures fits { result ≡ fits grain (side s) }
{
    s.axis.abs() + s.half <= 16 * grain
}

// piece k of depth d
pub fn piece_of(shape: Shape, d: usize, k: usize, grain: i64) -> Piece
    requires sizes { ShapeSized shape × PieceAt d k × (nat_abs grain ≤ grain_most) }
    ensures strip { as_strip result.strip ≡ strips_of shape d k }
    ensures sized { Sized (as_strip result.strip) }
    ensures short { result.short ≡ short grain (strips_of shape d k) }
{
    let strip = strip_of(shape, d, k);
    Piece {
        strip,
        short: fits(strip.x, grain) && fits(strip.y, grain),
    }
}
