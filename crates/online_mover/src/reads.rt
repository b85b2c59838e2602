ghost use Rattle.std.specs.Prelude.{◌≡◌, ◌<◌, length};
ghost use Rattle.plan_model.specs.Units.{want_of, value_for, place_of};

use plan_model::{Case, Place, Want};

/// What is asked for reservation r.
pub(crate) fn want(case: &Case, r: u32) -> &Want
    requires { r < length case.now.wants }
    ensures { result.now ≡ want_of case.now r }
{
    &case.wants.as_slice()[r as usize]
}

/// Where a server stands in the region.
pub(crate) fn place(case: &Case, server: u32) -> Place
    requires { server < length case.now.places }
    ensures { result ≡ place_of case.now server }
{
    case.places.as_slice()[server as usize]
}

/// The value of reservation r for a server's type.
pub(crate) fn value(case: &Case, r: u32, server: u32) -> u64
    requires in_range { r < length case.now.wants }
    requires there { server < length case.now.places }
    ensures { result ≡ value_for case.now r (place_of case.now server).kind }
{
    let kind = place(case, server).kind;
    let values = want(case, r).values.as_slice();
    u64::from(values.get(kind as usize).copied().unwrap_or(0))
}
