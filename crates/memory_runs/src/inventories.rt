//! Inventories of a few servers of one type, made by hand.

/// The bindings of no server.
pub const UNBOUND: &str = "server,reservation,busy,up\n";

/// A server on each of two switchboards.
pub const TWO: &str = "server,type,rack,switchboard,datacenter\ns1,t,k1,m1,d1\ns2,t,k2,m2,d1\n";

/// A server on each of three switchboards.
pub const THREE: &str =
    "server,type,rack,switchboard,datacenter\ns1,t,k1,m1,d1\ns2,t,k2,m2,d1\ns3,t,k3,m3,d1\n";

/// Two servers on each of two switchboards.
pub const FOUR: &str = concat!(
    "server,type,rack,switchboard,datacenter\n",
    "s1,t,k1,m1,d1\ns2,t,k1,m1,d1\ns3,t,k2,m2,d1\ns4,t,k2,m2,d1\n",
);

/// A server on each of three switchboards, and a further one on the first.
pub const THREE_AND_ONE: &str = concat!(
    "server,type,rack,switchboard,datacenter\n",
    "s1,t,k1,m1,d1\ns2,t,k2,m2,d1\ns3,t,k3,m3,d1\ns4,t,k1,m1,d1\n",
);

/// Two servers on each of three switchboards.
pub const SIX: &str = concat!(
    "server,type,rack,switchboard,datacenter\n",
    "s1,t,k1,m1,d1\ns2,t,k1,m1,d1\ns3,t,k2,m2,d1\ns4,t,k2,m2,d1\ns5,t,k3,m3,d1\ns6,t,k3,m3,d1\n",
);
