// The four numbers of a signal judged, and its value.
ghost use Rattle.std.specs.Prelude.{◌≡◌, T};
ghost use Rattle.std.specs.Float.{binary64};
ghost use Rattle.std.specs.Float.Ieee.{in_float};
ghost use Rattle.signals.specs.Values as values;

use crate::{Scaling, Verdict};

// Whether one of the four numbers is not finite, or the low limit is above the high one.
pub fn unusable(s: Scaling) -> bool
    ensures { result ≡ values.unusable s }
{
    let usable = s.scale.is_finite()
        & s.offset.is_finite()
        & s.low.is_finite()
        & s.high.is_finite();
    !usable | (s.high < s.low)
}

// The raw number times the scale, rounded, plus the offset, rounded.
pub fn value(raw: i64, s: Scaling) -> f64
    requires { T (in_float binary64 raw) }
    ensures { result ≡ values.value_of raw s }
{
    let product = raw as f64 * s.scale;
    product + s.offset
}

// Where a value lies in its limits.
pub fn verdict(value: f64, s: Scaling) -> Verdict
    ensures { result ≡ values.verdict value s }
{
    if !value.is_finite() {
        return Verdict::NotFinite(value);
    }
    if value < s.low {
        return Verdict::Below(value);
    }
    if s.high < value {
        return Verdict::Above(value);
    }
    Verdict::Within(value)
}

// The value that a verdict carries.
pub fn carried(v: Verdict) -> f64
    ensures { result ≡ values.carried v }
{
    match v {
        Verdict::Below(x) | Verdict::Within(x) | Verdict::Above(x) | Verdict::NotFinite(x) => x,
    }
}

// The number of a verdict.
pub fn number(v: Verdict) -> usize
    ensures { result ≡ values.number v }
{
    match v {
        Verdict::Below(_) => 1,
        Verdict::Within(_) => 2,
        Verdict::Above(_) => 3,
        Verdict::NotFinite(_) => 4,
    }
}
