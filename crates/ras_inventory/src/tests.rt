use crate::{read_bindings, read_region};
use std::alloc::{AllocError, Global};
use std::test::Fail;

// What is told of an inventory with these bytes.
fn inventory(alloc: Global, bytes: &[u8]) -> Result<String, AllocError> {
    if bytes.len() > 10_000 {
        return format!(in alloc; "long");
    }
    match read_region(alloc, bytes) {
        Ok(region) => {
            let (types, boards) = (region.types.len(), region.boards.len());
            format!(in alloc;
                "{} servers, {types} types, {boards} switchboards",
                region.servers.len()
            )
        }
        Err(fault) => format!(in alloc; "{fault}"),
    }
}

// What is told of bindings of the servers s1 and s2.
fn bindings(alloc: Global, bytes: &[u8]) -> Result<String, AllocError> {
    if bytes.len() > 10_000 {
        return format!(in alloc; "long");
    }
    let servers =
        b"server,type,rack,switchboard,datacenter\ns1,t,k1,m1,d1\ns2,t,k2,m2,d1\n".as_slice();
    match read_region(alloc, servers) {
        Err(fault) => format!(in alloc; "{fault}"),
        Ok(region) => match read_bindings(alloc, &region, bytes) {
            Ok(bindings) => format!(in alloc; "{} bindings", bindings.of.len()),
            Err(fault) => format!(in alloc; "{fault}"),
        },
    }
}

#[test]
fn inventories(rt: HostRuntime) -> Result<(), Fail> {
    let cases = [
        ("", "line 1: head"),
        ("server,type,rack,board,datacenter", "line 1: head"),
        ("s1,t,k1,m1", "line 2: columns 4"),
        ("s1,t,k 1,m1,d1", "line 2: column 3"),
        ("s1,,k 1,m1,d1", "line 2: column 2"),
        ("s1,t,k1,m1,d1\ns1,t,k1,m1,d1", "line 3: twice"),
        ("s1,t,k1,m1,d1\ns2,t,k1,m2,d1", "line 3: rack moved"),
        ("s1,t,k1,m1,d1\ns2,t,k2,m1,d2", "line 3: switchboard moved"),
        ("s1,t,k1,m1,d1\ns1,t,k1,m2,d1\ns2", "line 3: twice"),
        ("s1,t,k1,m1,d1\ns2\ns1,t,k1,m1,d1", "line 3: columns 1"),
        (
            "s1,t,k1,m1,d1\r\ns2,u,k2,m1,d1\r\n",
            "2 servers, 2 types, 1 switchboards",
        ),
    ];
    for (lines, want) in cases {
        let text = if lines.is_empty() || lines.starts_with("server") {
            format!(in rt.alloc(); "{lines}")?
        } else {
            format!(in rt.alloc(); "server,type,rack,switchboard,datacenter\n{lines}")?
        };
        let told = inventory(rt.alloc(), text.as_bytes())?;
        assert!(rt; told.as_str() == want, "{lines}: {told}");
    }
    Ok(())
}

#[test]
fn a_mark_and_line_ends_of_two_bytes(rt: HostRuntime) -> Result<(), Fail> {
    let bytes =
        b"\xEF\xBB\xBFserver,type,rack,switchboard,datacenter\r\ns1,t,k1,m1,d1\r\n".as_slice();
    let told = inventory(rt.alloc(), bytes)?;
    assert!(rt;
        told.as_str() == "1 servers, 1 types, 1 switchboards",
        "{told}"
    );
    Ok(())
}

#[test]
fn bindings_of_two_servers(rt: HostRuntime) -> Result<(), Fail> {
    let cases = [
        ("", "2 bindings"),
        ("s2,a,1,0", "2 bindings"),
        ("s2,,0,1", "2 bindings"),
        ("s2,a,1", "line 2: columns 3"),
        ("s2,a,2,1", "line 2: column 3"),
        ("s3,a,1,1", "line 2: unknown"),
        ("s2,a,1,1\ns2,b,0,1", "line 3: twice"),
        ("s2,a,1,1\ns2,b,0,1\ns3,a,1,1", "line 3: twice"),
        ("s2,a,1,1\ns3,b,0,1\ns2,a,1,1", "line 3: unknown"),
    ];
    for (lines, want) in cases {
        let text = format!(in rt.alloc(); "server,reservation,busy,up\n{lines}\n")?;
        let told = bindings(rt.alloc(), text.as_bytes())?;
        assert!(rt; told.as_str() == want, "{lines}: {told}");
    }
    let told = bindings(rt.alloc(), b"server,reservation,up,busy\n")?;
    assert!(rt; told.as_str() == "line 1: head", "{told}");
    Ok(())
}
