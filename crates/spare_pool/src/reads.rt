ghost use Rattle.std.specs.Prelude.{◌≡◌, ◌<◌, ◌≤◌, length};
ghost use Rattle.plan_model.specs.Units.{value_for, place_of};

use plan_model::Case;

/// The type of a server.
pub(crate) fn kind(case: &Case, server: u32) -> u32
    requires { server < length case.now.places }
    ensures kind { result ≡ (place_of case.now server).kind }
    ensures there { result < case.now.kinds }
{
    case.places.as_slice()[server as usize].kind
}

/// The value of reservation r for a type.
pub(crate) fn value_of_kind(case: &Case, r: u32, kind: u32) -> u32
    requires { r < length case.now.wants }
    ensures value { result ≡ value_for case.now r kind }
    ensures most { result ≤ 1000 }
{
    let wants = case.wants.as_slice();
    let want = &wants[r as usize];
    let values = want.values.as_slice();
    values.get(kind as usize).copied().unwrap_or(0)
}

/// The value of reservation r for a server's type.
pub(crate) fn value(case: &Case, r: u32, server: u32) -> u32
    requires in_range { r < length case.now.wants }
    requires there { server < length case.now.places }
    ensures value { result ≡ value_for case.now r (place_of case.now server).kind }
    ensures most { result ≤ 1000 }
{
    value_of_kind(case, r, kind(case, server))
}
