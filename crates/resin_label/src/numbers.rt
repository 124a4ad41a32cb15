//! Rising lists of numbers.
ghost use Rattle.std.specs.Prelude.{◌≡◌, ℕ, IfOk, not, nat_eq};
ghost use Rattle.std.specs.List.{filter, list_any, list_all};
ghost use Rattle.resin_label.specs.Sets.{IsRising};
ghost use Rattle.resin_label.specs.Kept.{merge};

use std::alloc::{AllocError, Global};

// Whether `n` stands among the numbers.
pub(crate) fn has(numbers: &[u32], n: u32) -> bool
    requires { IsRising numbers.now }
    ensures { result ≡ list_any (λ x. nat_eq x n) numbers.now }
{
    numbers.binary_search(&n).is_ok()
}

// Whether each of the numbers `ys` stands among `xs`.
pub(crate) fn holds(xs: &[u32], ys: &[u32]) -> bool
    requires { IsRising xs.now }
    ensures { result ≡ list_all (λ y. list_any (λ x. nat_eq x y) xs.now) ys.now }
{
    ys.iter().all(|y| has(xs, *y))
}

// The numbers of both lists, rising.
pub(crate) fn merged(alloc: Global, xs: &[u32], ys: &[u32]) -> Result<Vec<u32>, AllocError>
    ensures { IfOk result (λ v. v.items ≡ merge xs.now ys.now) }
{
    let mut out = Vec::new(alloc);
    let mut i = 0;
    let mut j = 0;
    'both: while i < xs.len() && j < ys.len() {
        let x = xs[i];
        let y = ys[j];
        if x < y {
            out.push(x)?;
            i += 1;
        } else if y < x {
            out.push(y)?;
            j += 1;
        } else {
            out.push(x)?;
            i += 1;
            j += 1;
        }
    }
    out.extend_from_slice(&xs[i..])?;
    out.extend_from_slice(&ys[j..])?;
    Ok(out)
}

// The numbers other than `n`.
pub(crate) fn others(alloc: Global, xs: &[u32], n: u32) -> Result<Vec<u32>, AllocError>
    ensures { IfOk result (λ v. v.items ≡ filter (λ x. not (nat_eq x n)) xs.now) }
{
    xs.iter().copied().filter(|x| *x != n).collect(alloc)
}
