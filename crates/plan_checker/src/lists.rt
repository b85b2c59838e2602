//! Where two lists differ.
ghost use Rattle.std.specs.Prelude.{◌≡◌, ◌<◌, ◌^◌, length};
ghost use Rattle.plan_checker.specs.Reasons.{first_difference};

use ras_table::List;

/// The first place at which two lists differ, from 0.
pub fn first_difference(stated: &List<u32>, right: &List<u32>) -> Option<u32>
    ensures { result ≡ first_difference stated.now right.now }
{
    let both = stated.len().min(right.len());
    for i in 0..both {
        if stated.as_slice()[i as usize] != right.as_slice()[i as usize] {
            return Some(i);
        }
    }
    if stated.len() == right.len() {
        return None;
    }
    Some(both)
}
