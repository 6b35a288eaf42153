ghost use Rattle.std.specs.Prelude.{◌≡◌, true, false};
ghost use Rattle.interval.specs.Interval.{ends};
ghost use Rattle.inputs.specs.System.{system};
ghost use Rattle.half_rows.specs.Operations.{load, half_pass, narrowing, operate};
ghost use Rattle.capi.specs.Flat.{call_of};

use crate::systems::KifwalebOutcome;
use half_rows::{half_down, half_up, load, narrow};

// A balance and a start box into a state.
#[unsafe(no_mangle)]
pub extern "C" fn kifwaleb_half_load(
    state: &mut [i64],
    n: usize,
    b_matrix: &[i64],
    b: &[i64],
    bounds: &[i64],
) -> KifwalebOutcome
    ensures { call_of result state.new ≡
        operate (load (system n b_matrix.now b.now) bounds.now) state.old }
{
    load(state, n, b_matrix, b, bounds).into()
}

// The half pass from vat 1 to n.
#[unsafe(no_mangle)]
pub extern "C" fn kifwaleb_half_up(state: &mut [i64]) -> KifwalebOutcome
    ensures { call_of result state.new ≡ operate (half_pass false) state.old }
{
    half_up(state).into()
}

// The half pass from vat n to 1.
#[unsafe(no_mangle)]
pub extern "C" fn kifwaleb_half_down(state: &mut [i64]) -> KifwalebOutcome
    ensures { call_of result state.new ≡ operate (half_pass true) state.old }
{
    half_down(state).into()
}

// One vat narrowed by a weighed interval.
#[unsafe(no_mangle)]
pub extern "C" fn kifwaleb_half_narrow(
    state: &mut [i64],
    vat: usize,
    lo: i64,
    hi: i64,
) -> KifwalebOutcome
    ensures { call_of result state.new ≡ operate (narrowing vat (ends lo hi)) state.old }
{
    narrow(state, vat, lo, hi).into()
}
