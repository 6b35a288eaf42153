ghost use Rattle.std.specs.Prelude.{◌≡◌, List, ℕ, ℤ, length, ◌*◌, ◌<◌};
ghost use Rattle.fraction.specs.Meaning.{Contains};
ghost use Rattle.inputs.specs.Place.{at};
ghost use Rattle.inputs.specs.Code.{Sound};
ghost use Rattle.inputs.specs.System.{System};
ghost use Rattle.rows.specs.Sum.{once};
ghost use Rattle.sweep.specs.Code.{Ready};

use interval::Interval;

// A balance that can be swept, however its matrix is held.
pub trait Balance {
    // matrix and right side, and what must be true of a box for its rows to be summed with it
    ghost system: { Self → System };

    ghost is_ready: { Self → List ℤ → Type 0 };

    // How many components it has.
    fn size(&self) -> usize
        ensures { result ≡ (system self.now).size };

    fn right(&self) -> &[i64]
        ensures { result.now ≡ (system self.now).right };

    // The sum of row i with the box x, rounded outward once.
    fn row_sum(&self, i: usize, x: &[i64]) -> Interval
        requires ready { is_ready self.now x.now }
        requires in_bounds { i < (system self.now).size }
        ensures { result ≡ once (system self.now).matrix (i * (system self.now).size) x.now 0 (system self.now).size };

    // such a box has as many components as the balance, and all three are of intervals
    ghost all_sound: { (b : Self) (x : List ℤ) → is_ready b x → Ready (system b).size (system b).matrix (system b).right x };

    // a pass only narrows a box: one that is as long, of intervals that are no wider, is ready too
    ghost stays_ready: { (b : Self) (x y : List ℤ) → is_ready b x → length y ≡ length x → Sound y → ((j : ℕ) → Contains (at x j) (at y j)) → is_ready b y };
}
