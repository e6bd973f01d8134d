//! Exact amounts rounded to whole cents.
#![tactic(auto)]

ghost use Rattle.std.specs.Prelude.{◌≡◌, ◌<◌, length};
ghost use Rattle.amounts.specs.Cut.{cutting};
ghost use Rattle.amounts.specs.Floor.{floor_div, nearest};
ghost use Rattle.amounts.specs.Laws.{AddsUp, AsMany, KeepsBounds, LiesBetween, RoundsDown, RoundsToNearest};

/// `x / divisor`, rounded down.
pub fn round_down(x: i64, divisor: u32) -> i64
    requires { 0 < divisor }
    ensures { result ≡ floor_div x divisor }
{
    x.div_euclid(i64::from(divisor))
}

/// The nearest cent of `v` thousandths of a cent, an exact half going up.
pub fn nearest_cent(v: i64) -> i64
    ensures { result ≡ nearest v }
{
    let whole = v.div_euclid(1000);
    if v.rem_euclid(1000) < 500 {
        whole
    } else {
        whole + 1
    }
}

/// Cuts exact amounts, numerators over a common divisor, into whole parts:
/// the running sum is rounded down, and a part is that figure less the figure before it.
pub fn cut(amounts: &[i64], divisor: u32, parts: &mut [i64])
    requires some { 0 < divisor }
    requires same { length parts.old ≡ length amounts.now }
    ensures { parts.new ≡ cutting divisor amounts.now }
{
    // The parts begin as the amounts: after a zip with parts.iter_mut() a proof knows no part's value.
    parts.copy_from_slice(amounts);
    let mut sum: i128 = 0;
    let mut before: i128 = 0;
    for part in parts.iter_mut() {
        sum += i128::from(*part);
        let figure = sum.div_euclid(i128::from(divisor));
        *part = (figure - before) as i64;
        before = figure;
    }
}

/// What rounding and cutting promise, for every amount and every divisor above 0.
pub fn rounding_stands()
    ensures rounds { RoundsDown }
    ensures halves { RoundsToNearest }
    ensures adds { AddsUp }
    ensures between { LiesBetween }
    ensures bounds { KeepsBounds }
    ensures many { AsMany }
{}
