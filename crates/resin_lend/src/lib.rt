//! Values lent for one call: what stands in places of a caller is handed on by value, and put back behind the call.
#![tactic(auto)]

/// Takes the values out of four places, calls `f` with them, and puts into the places what `f` gives back of them; the answer is the last
/// that `f` gives. Nothing unwinds, so no one meets a place while it is empty. For fewer places lend a `()` of one's own.
pub fn lend_four<A, B, C, D, R, F: FnOnce(A, B, C, D) -> (A, B, C, D, R)>(
    a: &mut A,
    b: &mut B,
    c: &mut C,
    d: &mut D,
    f: F,
) -> R
    requires { F.pre f a.old b.old c.old d.old }
    ensures { F.post f a.old b.old c.old d.old (a.new, b.new, c.new, d.new, result) }
{
    let first = a as *mut A;
    let second = b as *mut B;
    let third = c as *mut C;
    let fourth = d as *mut D;
    unsafe {
        let (w, x, y, z, result) = f(first.read(), second.read(), third.read(), fourth.read());
        first.write(w);
        second.write(x);
        third.write(y);
        fourth.write(z);
        result
    }
}
