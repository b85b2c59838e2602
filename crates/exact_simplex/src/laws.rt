//! Laws of the written method, each the contract of a call that does nothing.
ghost use Rattle.exact_simplex.specs.Laws.{PivotsRaise, PivotsRaiseFrom};
ghost use Rattle.exact_simplex.specs.Licences.{EmptyIsNotLicensed, LastIsOne, LeastIsNotLicensed};

/// Written pivots raise the column of values, so no tableau comes twice.
pub fn pivots_raise()
    ensures { PivotsRaise }
{}

/// Written pivots raise the column of values from any tableau on that stands for the program and is lexicographically positive.
pub fn pivots_raise_from()
    ensures { PivotsRaiseFrom }
{}

/// The program and the box alone fix the last tableau of the written method.
pub fn last_is_one()
    ensures { LastIsOne }
{}

/// A box where the written method ends at a least tableau with a certificate that fits is not licensed.
pub fn least_is_not_licensed()
    ensures { LeastIsNotLicensed }
{}

/// A box where the written method ends at an empty tableau with a refutation that fits is not licensed.
pub fn empty_is_not_licensed()
    ensures { EmptyIsNotLicensed }
{}
