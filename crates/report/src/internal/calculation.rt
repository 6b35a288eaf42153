ghost use Rattle.std.specs.Prelude.{◌≡◌, ◌≤◌};
ghost use Rattle.outcome.specs.Run.{returned};
ghost use Rattle.inputs.specs.System.{system};
ghost use Rattle.text.specs.Code.{system_of};
ghost use Rattle.report.specs.Call.{calculation};

use elimination::eliminate_balance;
use sweep::{Swept, sweep};
use text::internal::lines::Numbers;

// Eliminates from B and b to a lent box, and sweeps it.
pub fn calculate(n: usize, matrix: &[i64], right: &[i64], bounds: &mut [i64]) -> Swept
    ensures { returned result.outcome result.count bounds.new ≡
        calculation (system n matrix.now right.now) bounds.old }
{
    match eliminate_balance(n, matrix, right, bounds) {
        Ok(()) => sweep(n, matrix, right, bounds, 100),
        Err(o) => Swept {
            outcome: Err(o),
            count: 0,
        },
    }
}

// The calculation for the balance of which the numbers stand at the beginning of t.
pub fn calculate_from(n: usize, t: &Numbers, bounds: &mut [i64]) -> Swept
    requires { n ≤ 32 }
    ensures { returned result.outcome result.count bounds.new ≡ calculation (system_of n t.now) bounds.old }
{
    let square = 2 * (n * n);
    let end = square + 2 * n;
    calculate(n, &t[..square], &t[square..end], bounds)
}
