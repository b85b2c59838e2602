//! What a row lacks at numbers of the columns, and its helper.
ghost use Rattle.std.specs.Prelude.{◌≡◌, ℕ, ◌<◌, ◌≤◌, ◌^◌, ◌↔◌, ℤ, pos, ◌-ℤ◌, ◌*ℤ◌, unsigned_abs, All, IfNone, IfSome, IsTrue, length, slice_index};
ghost use Rattle.ip_model.specs.Limits.{helper_at, is_helper};
ghost use Rattle.ip_model.specs.Sums.{terms_at};
ghost use Rattle.bound_certificate.specs.Bound.{least_of, terms_of};
ghost use Rattle.closed_boxes.specs.Helpers.{HasColumn, HasNoHelper, IsHelperOf, IsTight};

use ip_model::{Column, Mark, Program, Term};

/// Whether a mark makes its column a helper.
pub fn is_helper(mark: Mark) -> bool
    ensures { result ≡ is_helper mark }
{
    !matches!(mark, Mark::Count { .. })
}

/// The first term's column that is a helper.
fn first_helper(columns: &[Column], terms: &[Term]) -> Option<u32>
    requires { All (λ t. t.column < length columns.now) terms.now }
    ensures helper { IfSome result (λ h. IsTrue (helper_at columns.now h)) }
    ensures stands { IfSome result (λ h. HasColumn terms.now h) }
    ensures none { IfNone result (HasNoHelper columns.now terms.now) }
{
    for term in terms {
        if is_helper(columns[term.column as usize].mark) {
            return Some(term.column);
        }
    }
    None
}

/// A row's helper, of which it has at most one.
pub fn helper_of(program: &Program, row: usize) -> Option<u32>
    requires { row < length program.now.rows }
    ensures some { IfSome result (λ h. IsHelperOf program.now.columns (terms_of program.now.rows row) h) }
    ensures none { IfNone result (HasNoHelper program.now.columns (terms_of program.now.rows row)) }
{
    let line = &program.rows.as_slice()[row];
    first_helper(program.columns.as_slice(), line.terms.as_slice())
}

/// Factor times number.
fn product(term: &Term, numbers: &[u32]) -> i128
    requires { term.now.column < length numbers.now }
    ensures value { result ≡ term.now.factor *ℤ pos (slice_index numbers.now term.now.column) }
    ensures size { unsigned_abs result ≤ 2 ^ 63 }
{
    i128::from(term.factor) * i128::from(numbers[term.column as usize])
}

/// The sum of factor times number.
fn sum_of_terms(terms: &[Term], numbers: &[u32]) -> i128
    requires few { length terms.now ≤ 2048 }
    requires in_range { All (λ t. t.column < length numbers.now) terms.now }
    ensures value { result ≡ terms_at terms.now (slice_index numbers.now) }
    ensures size { unsigned_abs result ≤ 2 ^ 96 }
{
    let mut total: i128 = 0;
    for term in terms {
        total += product(term, numbers);
    }
    total
}

/// What a row asks, less the sum of its terms at these numbers.
pub fn lacking(program: &Program, row: usize, numbers: &[u32]) -> i128
    requires row { row < length program.now.rows }
    requires size { length numbers.now ≡ length program.now.columns }
    ensures { result ≡ least_of program.now.rows row -ℤ terms_at (terms_of program.now.rows row) (slice_index numbers.now) }
{
    let line = &program.rows.as_slice()[row];
    i128::from(line.least) - sum_of_terms(line.terms.as_slice(), numbers)
}

/// Whether the sum of a row's terms at these numbers is what the row asks.
pub fn is_tight(program: &Program, row: usize, numbers: &[u32]) -> bool
    requires row { row < length program.now.rows }
    requires size { length numbers.now ≡ length program.now.columns }
    ensures { IsTrue result ↔ IsTight program.now numbers.now row }
{
    lacking(program, row, numbers) == 0
}
