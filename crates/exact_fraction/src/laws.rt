//! Laws of the operations, each the contract of a call that does nothing.
ghost use Rattle.exact_fraction.specs.Laws.{GoesBySign, IsTotal, ProductsAgree, SumsAgree, SumsCommute};

/// Sums of whole numbers are those of the integers, and answer None exactly where those pass 2^126.
pub fn sums_agree()
    ensures { SumsAgree }
{}

/// Products of whole numbers are those of the integers, and answer None exactly where those pass 2^126.
pub fn products_agree()
    ensures { ProductsAgree }
{}

/// A sum is the same with its parts swapped, in its value and in None.
pub fn sums_commute()
    ensures { SumsCommute }
{}

/// The order is total: it turns round with its parts, only the same fractions are equal, and it is transitive.
pub fn order_is_total()
    ensures { IsTotal }
{}

/// Where a difference fits, its sign is the order of its parts.
pub fn order_goes_by_sign()
    ensures { GoesBySign }
{}
