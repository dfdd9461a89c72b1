//! Division of Ints, which is rounded down.
ghost use Rattle.std.specs.Prelude.{◌≡◌, ◌≢◌, pos, ◌≤ℤ◌, ◌<ℤ◌, FitsSigned};
ghost use Rattle.std.specs.Int.{w64};
ghost use Rattle.std.specs.Option.{SomeIff};
ghost use Rattle.ink_code.specs.IntRows.{floor_quotient, floor_rest};

/// The quotient rounded down, where it is an Int.
#[tactic(auto, using(crate::proofs::IntLemmas::quotient_above, crate::proofs::IntLemmas::quotient_both_below))]
pub fn floor_quotient(a: i64, b: i64) -> Option<i64>
    requires { b ≢ pos 0 }
    ensures { SomeIff result (FitsSigned w64 (floor_quotient a b)) (floor_quotient a b) }
{
    if b > 0 {
        Some(a.div_euclid(b))
    } else if a < 0 {
        a.checked_div(b)
    } else {
        Some(quotient_below(a, b))
    }
}

/// The same of a number that is above 0 or 0, by one below 0.
#[tactic(auto, using(crate::proofs::IntLemmas::quotient_none, crate::proofs::IntLemmas::quotient_past))]
fn quotient_below(a: i64, b: i64) -> i64
    requires dividend { pos 0 ≤ℤ a }
    requires divisor { b <ℤ pos 0 }
    ensures { result ≡ floor_quotient a b }
{
    if a == 0 { 0 } else { (a - 1).div_euclid(b) - 1 }
}

/// What is left beside that quotient, which has the divisor's sign.
#[tactic(auto, using(crate::proofs::IntLemmas::rest_above, crate::proofs::IntLemmas::rest_both_below))]
pub fn floor_rest(a: i64, b: i64) -> i64
    requires { b ≢ pos 0 }
    ensures { result ≡ floor_rest a b }
{
    if b > 0 {
        a.rem_euclid(b)
    } else if a < 0 {
        a.wrapping_rem(b)
    } else {
        rest_below(a, b)
    }
}

/// The same of a number that is above 0 or 0, by one below 0.
#[tactic(auto, using(crate::proofs::IntLemmas::rest_none, crate::proofs::IntLemmas::rest_past))]
fn rest_below(a: i64, b: i64) -> i64
    requires dividend { pos 0 ≤ℤ a }
    requires divisor { b <ℤ pos 0 }
    ensures { result ≡ floor_rest a b }
{
    if a == 0 {
        0
    } else {
        (a - 1).rem_euclid(b) + (b + 1)
    }
}
