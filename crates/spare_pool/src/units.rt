ghost use Rattle.std.specs.Prelude.{◌≡◌, ◌<◌, length};
ghost use Rattle.spare_pool.specs.Sums.{lessened, raised, HasUnits, HasRoom};

use crate::reads::value;
use plan_model::Case;
use ras_table::List;

/// A server that counted for a reservation, or for none, counts no more.
pub(crate) fn lessen(case: &Case, units: &mut List<u64>, server: u32, from: Option<u32>)
    requires there { server < length case.now.places }
    requires some { HasUnits case.now server from units.old }
    ensures { units.new ≡ lessened case.now server from units.old }
{
    if let Some(r) = from {
        let left = units.as_slice()[r as usize] - u64::from(value(case, r, server));
        units.set(r, left);
    }
}

/// A server that counted for none counts for a reservation, or for none.
pub(crate) fn raise(case: &Case, units: &mut List<u64>, server: u32, to: Option<u32>)
    requires there { server < length case.now.places }
    requires room { HasRoom case.now to units.old }
    ensures { units.new ≡ raised case.now server to units.old }
{
    if let Some(r) = to {
        let all = units.as_slice()[r as usize] + u64::from(value(case, r, server));
        units.set(r, all);
    }
}
