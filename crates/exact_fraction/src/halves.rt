//! The greatest common divisor of numbers of 64 bits, by halves and differences.
ghost use Rattle.std.specs.Prelude.{◌≡◌, ℕ, ◌%◌, ◌<◌, ◌≤◌};
ghost use Rattle.std.specs.Int.{IsGcd};

/// The number without its factors 2.
fn odd_part(n: u64) -> u64
    requires { 0 < n }
    ensures odd { result % 2 ≡ 1 }
    ensures most { result ≤ n }
    ensures gcd { (x g : ℕ) → x % 2 ≡ 1 → IsGcd x result g → IsGcd x n g }
{
    n >> n.trailing_zeros()
}

/// The greatest common divisor of an odd number and another.
fn odd_gcd(a: u64, b: u64) -> u64
    requires { a % 2 ≡ 1 }
    ensures { IsGcd a b result }
{
    let mut x = a;
    let mut y = b;
    while y != 0 {
        let odd = odd_part(y);
        y = x.abs_diff(odd);
        x = x.min(odd);
    }
    x
}

/// The greatest common divisor: the common factors 2, times that of what is left.
pub fn narrow_gcd(a: u64, b: u64) -> u64
    ensures { IsGcd a b result }
{
    if a == 0 {
        return b;
    }
    if b == 0 {
        return a;
    }
    let own = a.trailing_zeros();
    let their = b.trailing_zeros();
    if own <= their {
        odd_gcd(a >> own, b >> own) << own
    } else {
        odd_gcd(b >> their, a >> their) << their
    }
}
