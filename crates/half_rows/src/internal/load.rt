ghost use Rattle.std.specs.Prelude.{◌≡◌, true, ◌*◌, ◌≤◌, length};
ghost use Rattle.inputs.specs.System.{system};
ghost use Rattle.sweep.specs.Code.{Ready};
ghost use Rattle.half_rows.specs.Rows.{sides};
ghost use Rattle.half_rows.specs.State.{with_system};
ghost use Rattle.half_rows.specs.Operations.{loaded_over, loaded};

use crate::internal::operations::commit;
use crate::internal::state::{LENGTH, MATRIX, RIGHT};
use crate::internal::way::Way;
use inputs::internal::copy::{copy_out, fill};
use kept_sums::internal::write_sum;
use rows::internal::Products;
use wide_sum::WideInterval;

// A system and a start box that the tests passed.
#[derive(Clone, Copy)]
pub struct Load<'a> {
    pub n: usize,
    pub matrix: &'a [i64],
    pub right: &'a [i64],
    pub bounds: &'a [i64],
    pub ghost ready: { Ready n matrix.now right.now bounds.now },
}

impl Load<'_> {
    // The sums right of the diagonal, of every row.
    fn right_sums(self, sums: &mut [i64])
        requires { length sums.old ≡ 4 * self.n }
        ensures { sums.new ≡ sides true (system self.entry.n self.entry.matrix.now self.entry.right.now) self.entry.bounds.now self.entry.n 0 sums.old }
    {
        for i in 0..self.n {
            let q = Way::Down.first(i);
            let d = Way::Down.beside(self.n, i);
            let products = Products {
                m: self.matrix,
                p: i * self.n + q,
                x: self.bounds,
                q,
                d,
            };
            write_sum(sums, i, products.added_to(WideInterval::nought()));
        }
    }

    // Size, matrix and right side.
    fn put_system(self, t: &mut [i64; LENGTH])
        ensures { t.new ≡ with_system t.old (system self.entry.n self.entry.matrix.now self.entry.right.now) }
    {
        fill(t, self.matrix, MATRIX);
        fill(t, self.right, RIGHT);
        t[0] = self.n as i64;
    }

    // The whole state, written over t; sums is lent to work in.
    fn load_over(self, t: &mut [i64; LENGTH], sums: &mut [i64])
        requires { length sums.old ≡ 4 * self.n }
        ensures { t.new ≡ loaded_over t.old (system self.entry.n self.entry.matrix.now self.entry.right.now) self.entry.bounds.now }
    {
        copy_out(sums, t, Way::Down.sums_place());
        self.right_sums(sums);
        self.put_system(t);
        commit(t, Way::Down, self.bounds, sums);
    }

    // The state becomes the loaded one, whatever stood there: it is made over noughts.
    pub fn load_into(self, state: &mut [i64; LENGTH])
        ensures { state.new ≡ loaded (system self.entry.n self.entry.matrix.now self.entry.right.now) self.entry.bounds.now }
    {
        // An array of fixed size, since there is no heap.
        let mut t = [0i64; LENGTH];
        let mut sums = [0i64; 128];
        self.load_over(&mut t, &mut sums[..4 * self.n]);
        *state = t;
    }
}
