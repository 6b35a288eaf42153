ghost use Rattle.std.specs.Prelude.{◌≡◌, ◌++◌, ◌+◌, ◌≤◌, length, take, drop};
ghost use Rattle.std.proofs.Math.Seq.{paste};

// Copies s into t from at on.
pub fn fill(t: &mut [i64], s: &[i64], at: usize)
    requires { at + length s.now ≤ length t.old }
    ensures { t.new ≡ paste t.old at s.now (length s.now) }
{
    t[at..at + s.len()].copy_from_slice(s);
}

// Copies both lent slices to the beginning of t, one after the other.
pub fn copy_in(t: &mut [i64], matrix: &[i64], right: &[i64])
    requires { length matrix.now + length right.now ≤ length t.old }
    ensures { t.new ≡
        matrix.now ++ (right.now ++ drop (length matrix.now + length right.now) t.old) }
{
    fill(t, matrix, 0);
    fill(t, right, matrix.len());
}

// Copies the numbers of t from a place on into x.
pub fn copy_out(x: &mut [i64], t: &[i64], from: usize)
    requires { from + length x.old ≤ length t.now }
    ensures { x.new ≡ take (length x.old) (drop from t.now) }
{
    // One by one: where the compiler cannot see that x and t lie apart, a copy as a whole needs memmove, which callers of the archive for C need not have.
    for i in 0..x.len() {
        x[i] = t[from + i];
    }
}
