//! Fractions in lowest terms, and their operations.
ghost use Rattle.std.specs.Prelude.{◌≡◌, pos, neg_ℤ, ◌+ℤ◌, ◌-ℤ◌, ◌*ℤ◌, ◌≤ℤ◌, ◌<ℤ◌, unsigned_abs, IfSome, IfNone};
ghost use Rattle.std.specs.Ordering.{int_cmp};
ghost use Rattle.exact_fraction.specs.Sizes.{IsLowest};
ghost use Rattle.exact_fraction.specs.Exact.{IsRatio, SumFits, ProductFits, reciprocal_top};

use crate::compare::compare;
use crate::small::{divisor, mix, product, quotient, sum};
use std::cmp::Ordering;

/// The number `num / den`, in lowest terms.
#[derive(Clone, Copy)]
pub struct Fraction {
    /// The numerator, of magnitude at most 2^126.
    pub num: i128,
    /// The denominator, from 1 to 2^126.
    pub den: i128,
    pub ghost lowest: { IsLowest num den },
}

/// The whole number n over 1.
pub fn whole(n: i64) -> Fraction
    ensures num { result.num ≡ n }
    ensures den { result.den ≡ pos 1 }
{
    Fraction {
        num: i128::from(n),
        den: 1,
    }
}

impl Fraction {
    /// The sum of two numbers over one denominator.
    fn add_alike(self, other: Fraction) -> Option<Fraction>
        requires { self.den ≡ other.den }
        ensures value { IfSome result (λ f. IsRatio f.num f.den (self.num *ℤ other.den +ℤ other.num *ℤ self.den) (self.den *ℤ other.den)) }
        ensures fits { IfSome result (λ f. SumFits self.num self.den other.num other.den) }
        ensures none { IfNone result (SumFits self.num self.den other.num other.den → ⊥) }
    {
        let Some(top) = sum(self.num, other.num) else {
            return None;
        };
        let t = divisor(top, self.den.unsigned_abs());
        Some(Fraction {
            num: quotient(top, t),
            den: quotient(other.den, t),
        })
    }

    /// The sum of two whole numbers.
    fn add_whole(self, other: Fraction) -> Option<Fraction>
        requires own { self.den ≡ pos 1 }
        requires their { other.den ≡ pos 1 }
        ensures value { IfSome result (λ f. IsRatio f.num f.den (self.num *ℤ other.den +ℤ other.num *ℤ self.den) (self.den *ℤ other.den)) }
        ensures fits { IfSome result (λ f. SumFits self.num self.den other.num other.den) }
        ensures none { IfNone result (SumFits self.num self.den other.num other.den → ⊥) }
    {
        match sum(self.num, other.num) {
            Some(num) => Some(Fraction { num, den: 1 }),
            None => None,
        }
    }

    /// The sum, by the written intermediates.
    fn add_apart(self, other: Fraction) -> Option<Fraction>
        ensures value { IfSome result (λ f. IsRatio f.num f.den (self.num *ℤ other.den +ℤ other.num *ℤ self.den) (self.den *ℤ other.den)) }
        ensures fits { IfSome result (λ f. SumFits self.num self.den other.num other.den) }
        ensures none { IfNone result (SumFits self.num self.den other.num other.den → ⊥) }
    {
        let g = divisor(self.den, other.den.unsigned_abs());
        let own = quotient(self.den, g);
        let Some(top) = mix(self.num, quotient(other.den, g), other.num, own) else {
            return None;
        };
        let t = divisor(top, g);
        let Some(den) = product(own, quotient(other.den, t)) else {
            return None;
        };
        Some(Fraction {
            num: quotient(top, t),
            den,
        })
    }

    /// The sum `a/b + c/d`, where none of its intermediates passes 2^126.
    ///
    /// With `g = gcd(b, d)` and `t = gcd(s, g)` they are `p = a * (d/g)`, `q = c * (b/g)`, their sum `s` and the denominator `(b/g) * (d/t)`.
    pub fn add(self, other: Fraction) -> Option<Fraction>
        ensures value { IfSome result (λ f. IsRatio f.num f.den (self.num *ℤ other.den +ℤ other.num *ℤ self.den) (self.den *ℤ other.den)) }
        ensures fits { IfSome result (λ f. SumFits self.num self.den other.num other.den) }
        ensures none { IfNone result (SumFits self.num self.den other.num other.den → ⊥) }
    {
        if self.den == 1 && other.den == 1 {
            return self.add_whole(other);
        }
        if self.num == 0 {
            return Some(other);
        }
        if other.num == 0 {
            return Some(self);
        }
        if self.den == other.den {
            self.add_alike(other)
        } else {
            self.add_apart(other)
        }
    }

    /// The product of two whole numbers.
    fn mul_whole(self, other: Fraction) -> Option<Fraction>
        requires own { self.den ≡ pos 1 }
        requires their { other.den ≡ pos 1 }
        ensures value { IfSome result (λ f. IsRatio f.num f.den (self.num *ℤ other.num) (self.den *ℤ other.den)) }
        ensures fits { IfSome result (λ f. ProductFits self.num self.den other.num other.den) }
        ensures none { IfNone result (ProductFits self.num self.den other.num other.den → ⊥) }
    {
        match product(self.num, other.num) {
            Some(num) => Some(Fraction { num, den: 1 }),
            None => None,
        }
    }

    /// The product, by the written intermediates.
    fn mul_apart(self, other: Fraction) -> Option<Fraction>
        ensures value { IfSome result (λ f. IsRatio f.num f.den (self.num *ℤ other.num) (self.den *ℤ other.den)) }
        ensures fits { IfSome result (λ f. ProductFits self.num self.den other.num other.den) }
        ensures none { IfNone result (ProductFits self.num self.den other.num other.den → ⊥) }
    {
        let g = divisor(self.num, other.den.unsigned_abs());
        let h = divisor(other.num, self.den.unsigned_abs());
        let Some(num) = product(quotient(self.num, g), quotient(other.num, h)) else {
            return None;
        };
        let Some(den) = product(quotient(self.den, h), quotient(other.den, g)) else {
            return None;
        };
        Some(Fraction { num, den })
    }

    /// The product `a/b * c/d`, where none of its intermediates passes 2^126.
    ///
    /// With `g = gcd(a, d)` and `h = gcd(c, b)` they are `(a/g) * (c/h)` and `(b/h) * (d/g)`.
    pub fn mul(self, other: Fraction) -> Option<Fraction>
        ensures value { IfSome result (λ f. IsRatio f.num f.den (self.num *ℤ other.num) (self.den *ℤ other.den)) }
        ensures fits { IfSome result (λ f. ProductFits self.num self.den other.num other.den) }
        ensures none { IfNone result (ProductFits self.num self.den other.num other.den → ⊥) }
    {
        if self.den == 1 && other.den == 1 {
            return self.mul_whole(other);
        }
        if self.num == 0 {
            return Some(self);
        }
        if other.num == 0 {
            return Some(other);
        }
        self.mul_apart(other)
    }

    /// The number with its sign turned.
    pub fn negated(self) -> Fraction
        ensures num { result.num ≡ neg_ℤ self.num }
        ensures den { result.den ≡ self.den }
    {
        Fraction {
            num: -self.num,
            den: self.den,
        }
    }

    /// The difference, as the sum with the negative of the other number.
    pub fn sub(self, other: Fraction) -> Option<Fraction>
        ensures value { IfSome result (λ f. IsRatio f.num f.den (self.num *ℤ other.den -ℤ other.num *ℤ self.den) (self.den *ℤ other.den)) }
        ensures fits { IfSome result (λ f. SumFits self.num self.den (neg_ℤ other.num) other.den) }
        ensures none { IfNone result (SumFits self.num self.den (neg_ℤ other.num) other.den → ⊥) }
    {
        self.add(other.negated())
    }

    /// The least whole number that is not below the fraction.
    pub fn ceil(self) -> i128
        ensures up { self.num ≤ℤ (result *ℤ self.den) }
        ensures least { ((result -ℤ pos 1) *ℤ self.den) <ℤ self.num }
    {
        let whole = self.num.div_euclid(self.den);
        if self.num.rem_euclid(self.den) == 0 {
            whole
        } else {
            whole + 1
        }
    }

    /// One over a number above 0.
    fn flipped(self) -> Fraction
        requires { pos 0 <ℤ self.num }
        ensures num { result.num ≡ self.den }
        ensures den { result.den ≡ self.num }
    {
        Fraction {
            num: self.den,
            den: self.num,
        }
    }

    /// One over the number, with its denominator above 0.
    fn reciprocal(self) -> Fraction
        requires { self.num ≡ pos 0 → ⊥ }
        ensures num { result.num ≡ reciprocal_top self.num self.den }
        ensures den { result.den ≡ pos (unsigned_abs self.num) }
    {
        if self.num < 0 {
            self.negated().flipped().negated()
        } else {
            self.flipped()
        }
    }

    /// The quotient by a number other than 0, as the product with its reciprocal, whose denominator is above 0.
    pub fn div(self, other: Fraction) -> Option<Fraction>
        requires { other.num ≡ pos 0 → ⊥ }
        ensures value { IfSome result (λ f. IsRatio f.num f.den (self.num *ℤ other.den) (self.den *ℤ other.num)) }
        ensures fits { IfSome result (λ f. ProductFits self.num self.den (reciprocal_top other.num other.den) (pos (unsigned_abs other.num))) }
        ensures none { IfNone result (ProductFits self.num self.den (reciprocal_top other.num other.den) (pos (unsigned_abs other.num)) → ⊥) }
    {
        self.mul(other.reciprocal())
    }

    /// The order by the whole parts, and then by quotients and remainders of the rests, so nothing passes 128 bits.
    fn cmp_apart(self, other: Fraction) -> Ordering
        ensures { result ≡ int_cmp (self.num *ℤ other.den) (other.num *ℤ self.den) }
    {
        let own = self.num.div_euclid(self.den);
        let their = other.num.div_euclid(other.den);
        if own < their {
            Ordering::Less
        } else if their < own {
            Ordering::Greater
        } else {
            compare(
                self.num.rem_euclid(self.den).unsigned_abs(),
                self.den.unsigned_abs(),
                other.num.rem_euclid(other.den).unsigned_abs(),
                other.den.unsigned_abs(),
            )
        }
    }

    /// The order of the numbers, for all pairs: by the two products where they fit.
    pub fn cmp(self, other: Fraction) -> Ordering
        ensures { result ≡ int_cmp (self.num *ℤ other.den) (other.num *ℤ self.den) }
    {
        match (product(self.num, other.den), product(other.num, self.den)) {
            (Some(own), Some(their)) => own.cmp(&their),
            _ => self.cmp_apart(other),
        }
    }
}
