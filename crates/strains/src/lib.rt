// Readings, and the tests of a strain and of a sum of strains.
#![tactic(auto)]

ghost use Rattle.std.specs.Prelude.{◌≡◌, cond};
ghost use Rattle.std.specs.Float.Ieee.{lt, neg};
ghost use Rattle.strains.specs.Units.{is_units, plus_zero};

// A strain in microstrain, a clipped strain (the search ran to its end at that value), or missing.
#[derive(Clone, Copy)]
pub enum Reading {
    Strain(f64),
    Clipped(f64),
    Missing,
}

// 2^42: from here on every `f64` is a whole multiple of 1/1,024.
const WHOLE_FROM: f64 = 4_398_046_511_104.0;

// x without its sign.
// Kept: `f64::abs` was tried, and misses the bar of speed: once a reading, it makes a jump and more comparisons of what is one `maxsd` here.
fn magnitude(x: f64) -> f64
    ensures { result ≡ cond (lt x plus_zero) (neg x) x }
{
    if x < 0.0 { -x } else { x }
}

// Whether x is a whole multiple of 1/1,024 and at most 2,048 either way. Adding 2^42 rounds to such a multiple, and gives x back
// only where x is one.
pub fn is_strain(x: f64) -> bool
    ensures { result ≡ is_units 2097152 x }
{
    let a = magnitude(x);
    a <= 2_048.0 && a + WHOLE_FROM - WHOLE_FROM == a
}

// Whether x is a whole multiple of 1/1,024 and at most 2^43 either way.
pub fn is_sum(x: f64) -> bool
    ensures { result ≡ is_units 9007199254740992 x }
{
    let a = magnitude(x);
    if a < WHOLE_FROM {
        a + WHOLE_FROM - WHOLE_FROM == a
    } else {
        a <= 8_796_093_022_208.0
    }
}
