use crate::{sample, twelve_draws};
use std::test::Fail;

#[test]
fn twelve_servers(rt: HostRuntime) -> Result<(), Fail> {
    twelve_draws();
    let files = sample(rt.alloc(), 7, 3)?;
    let inventory = concat!(
        "server,type,rack,switchboard,datacenter\n",
        "s0x0,t1,k0x0,m0,d0\ns0x1,t1,k0x0,m0,d0\ns0x2,t0,k0x1,m0,d0\ns0x3,t1,k0x1,m0,d0\n",
        "s1x0,t1,k1x0,m1,d1\ns1x1,t0,k1x0,m1,d1\ns1x2,t0,k1x1,m1,d1\ns1x3,t0,k1x1,m1,d1\n",
        "s2x0,t0,k2x0,m2,d0\ns2x1,t1,k2x0,m2,d0\ns2x2,t0,k2x1,m2,d0\ns2x3,t0,k2x1,m2,d0\n",
    );
    let bindings = "server,reservation,busy,up\ns0x3,web,0,1\ns1x3,web,0,1\ns2x0,web,0,1\n";
    let requests =
        r#"{"format":1,"moves":{"busy":20,"idle":3,"take":1},"reservations":[{"name":"web","need":20,"rack_limit":10,"rack_weight":0,"values":{"t0":10,"t1":6}},{"name":"db","need":8,"values":{"t1":8}}]}"#;
    assert!(rt; files.inventory.as_slice() == inventory.as_bytes());
    assert!(rt; files.bindings.as_slice() == bindings.as_bytes());
    assert!(rt; files.requests.as_slice() == requests.as_bytes());
    Ok(())
}

#[test]
fn eight_servers(rt: HostRuntime) -> Result<(), Fail> {
    let files = sample(rt.alloc(), 1, 2)?;
    let inventory = concat!(
        "server,type,rack,switchboard,datacenter\n",
        "s0x0,t1,k0x0,m0,d0\ns0x1,t1,k0x0,m0,d0\ns0x2,t1,k0x1,m0,d0\ns0x3,t0,k0x1,m0,d0\n",
        "s1x0,t1,k1x0,m1,d1\ns1x1,t1,k1x0,m1,d1\ns1x2,t1,k1x1,m1,d1\ns1x3,t1,k1x1,m1,d1\n",
    );
    let bindings = "server,reservation,busy,up\ns1x0,web,0,1\ns1x1,web,0,1\ns1x2,web,0,1\n";
    let requests =
        r#"{"format":1,"moves":{"busy":20,"idle":3,"take":1},"reservations":[{"name":"web","need":10,"rack_limit":10,"rack_weight":1,"values":{"t0":10,"t1":6}},{"name":"db","need":8,"values":{"t1":8}}]}"#;
    assert!(rt; files.inventory.as_slice() == inventory.as_bytes());
    assert!(rt; files.bindings.as_slice() == bindings.as_bytes());
    assert!(rt; files.requests.as_slice() == requests.as_bytes());
    Ok(())
}
