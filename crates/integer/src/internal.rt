ghost use Rattle.std.specs.Prelude.{◌≡◌, pos, ◌<ℤ◌};
ghost use Rattle.integer.specs.Rounding.{floor_div, ceil_div};

// a / d rounded down
#[tactic(auto, using(crate::proofs::Divided::floor_is))]
pub fn floor_div(a: i64, d: i64) -> i64
    requires { pos 0 <ℤ d }
    ensures { result ≡ floor_div a d }
{
    a.div_euclid(d)
}

// a / d rounded up; the library has no div_ceil for i64
#[tactic(auto, using(crate::proofs::Divided::ceil_more, crate::proofs::Divided::ceil_whole))]
pub fn ceil_div(a: i64, d: i64) -> i64
    requires { pos 0 <ℤ d }
    ensures { result ≡ ceil_div a d }
{
    let q = a / d;
    let r = a % d;
    if 0 < r { q + 1 } else { q }
}
