use crate::{
    bindings_are_valid, inventory_is_valid, requests_are_valid, sample_case, sample_fits,
    size_is_kept,
};
use std::test::Fail;

#[test]
fn eight_servers(rt: HostRuntime) -> Result<(), Fail> {
    inventory_is_valid();
    size_is_kept();
    bindings_are_valid();
    requests_are_valid();
    sample_fits();
    let sample = sample_case(rt.alloc(), 1, 2)?;
    assert!(rt; sample.region.servers.len() == 8);
    assert!(rt; sample.region.boards.len() == 2);
    assert!(rt; sample.requests.list.len() == 2);
    let holders = sample.bindings.of.as_slice();
    assert!(rt; holders.iter().filter(|b| b.holder.is_some()).count() == 3);
    assert!(rt; sample.case.places.len() == 8);
    assert!(rt; sample.case.wants.len() == 2);
    Ok(())
}
