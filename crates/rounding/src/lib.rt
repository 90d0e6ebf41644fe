// Quotients rounded to the nearest whole number.
#![tactic(auto)]

ghost use Rattle.std.specs.Prelude.{◌≡◌, cond, ◌≤◌, ◌<◌, T, nat_abs};
ghost use Rattle.std.specs.Int.Signed.{non_neg, shr_z};
ghost use Rattle.integers.specs.Rounding.{nearest};
ghost use Rattle.integers.specs.Whole.{rest};

// A quotient: the whole number nearest to it, and whether it is that number. No Option: the nearest one is taken either way.
#[derive(Clone, Copy)]
pub struct Quotient {
    pub nearest: i64,
    pub whole: bool,
}

// y / d rounded down. The machine's division goes toward zero, which from 0 on is down. A number below 0 is -1 - z with z from 0 on, and its
// quotient -1 - z / d. By hand: std's `div_euclid` asks for the sign of d too, and with it the powers of two that strips divide by were no shifts.
fn floor(y: i64, d: i64) -> i64
    requires sizes { (nat_abs y ≤ 7900000000000000000) × (nat_abs d ≤ 17179869184) × (0 < nat_abs d) × T (non_neg d) }
    ensures down { result ≡ shr_z y (nat_abs d) }
{
    if y < 0 { -1 - (-1 - y) / d } else { y / d }
}

// The whole number nearest to x / n, a half toward plus infinity: x / n + 1/2 rounded down.
#[tactic(auto, using(crate::proofs::Nearest::quotients))]
fn nearest_to(x: i64, n: i64) -> i64
    requires sizes { (nat_abs x ≤ 3900000000000000000) × (nat_abs n ≤ 8589934592) × (0 < nat_abs n) × T (non_neg n) }
    ensures { result ≡ nearest x (nat_abs n) }
{
    let y = 2 * x + n;
    let d = 2 * n;
    floor(y, d)
}

// x / n rounded to the nearest whole number. It is that number itself just where n times it is x.
pub fn rounded(x: i64, n: i64) -> Quotient
    requires sizes { (nat_abs x ≤ 3900000000000000000) × (nat_abs n ≤ 8589934592) × (0 < nat_abs n) × T (non_neg n) }
    ensures nearest { result.nearest ≡ nearest x (nat_abs n) }
    ensures whole { rest x (nat_abs n) ≡ cond result.whole 0 1 }
{
    let nearest = nearest_to(x, n);
    let back = nearest * n;
    Quotient {
        nearest,
        whole: back == x,
    }
}
