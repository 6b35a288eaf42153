ghost use Rattle.std.specs.Prelude.{◌≡◌, ◌+◌, ◌*◌, ◌<◌, length};
ghost use Rattle.forward.specs.Pivot.{lowest_row, exchanged, swapped};
ghost use Rattle.forward.specs.Forward.{table};
ghost use Rattle.forward.specs.Code.{Working, row_of, Took};

use inputs::internal::{read, write};
use interval::Interval;
use interval::internal::contains_zero;
use outcome::Refusal;

// The lowest-numbered row from k on whose entry in column k does not contain 0, or 5.
fn choose(n: usize, k: usize, t: &[i64]) -> Result<usize, Refusal>
    requires { Working n t.now × (k < n) }
    ensures { row_of result ≡ lowest_row n k t.now }
{
    for i in k..n {
        let v = read(t, i * n + k);
        if !contains_zero(v) {
            return Ok(i);
        }
    }
    Err(Refusal::ContainsZero(k + 1))
}

#[tactic(auto, unfolding(crate::specs::Pivot::exchanged))]
// The intervals at p and q change places.
fn exchange(t: &mut [i64], p: usize, q: usize)
    requires { (2 * p + 1 < length t.old) × (2 * q + 1 < length t.old) }
    ensures { t.new ≡ exchanged p q t.old }
{
    let a = read(t, p);
    let b = read(t, q);
    write(t, p, b);
    write(t, q, a);
}

// The rows k and i change places, from column k on.
fn swap(n: usize, k: usize, i: usize, t: &mut [i64])
    requires { Working n t.old × (k < n) × (i < n) }
    ensures { t.new ≡ swapped n k i t.old }
{
    if i == k {
        return;
    }
    for j in k..n {
        exchange(t, k * n + j, i * n + j);
    }
    exchange(t, n * n + k, n * n + i);
}

// Step k takes its row, and hands back the pivot.
pub fn pivot(n: usize, k: usize, t: &mut [i64], taken: &mut [i64]) -> Result<Interval, Refusal>
    requires { Working n t.old × (k < n) × (length taken.old ≡ 32) }
    ensures { Took n k (table t.old taken.old) result (table t.new taken.new) }
{
    let i = choose(n, k, t)?;
    swap(n, k, i, t);
    taken[k] = i as i64;
    Ok(read(t, k * n + k))
}
