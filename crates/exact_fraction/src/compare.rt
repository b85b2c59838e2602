//! The order of fractions, by quotients and remainders.
ghost use Rattle.std.specs.Prelude.{◌≡◌, ◌*◌, ◌≤◌};
ghost use Rattle.std.specs.Ordering.{nat_cmp};

use std::cmp::Ordering;

/// The order of a / b and c / d.
pub fn compare(a: u128, b: u128, c: u128, d: u128) -> Ordering
    requires left { 1 ≤ b }
    requires right { 1 ≤ d }
    ensures { result ≡ nat_cmp (a * d) (c * b) }
{
    let x = a / b;
    let y = c / d;
    let p = a % b;
    let r = c % d;
    if x < y {
        Ordering::Less
    } else if y < x {
        Ordering::Greater
    } else if p == 0 {
        if r == 0 {
            Ordering::Equal
        } else {
            Ordering::Less
        }
    } else if r == 0 {
        Ordering::Greater
    } else {
        compare(d, r, b, p)
    }
}
