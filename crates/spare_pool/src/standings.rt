/// What happened to a server.
#[derive(Clone, Copy, Debug, PartialEq, Eq)]
pub enum Change {
    /// The server failed.
    Fail(u32),
    /// The server was repaired.
    Repair(u32),
}

/// What a change led to.
#[derive(Clone, Copy, Debug, PartialEq, Eq)]
pub enum Outcome {
    /// The reservation `r` lost a server, and the spare `by` serves it as well or better.
    Replaced {
        r: u32,
        by: u32,
    },
    /// The reservation `r` lost a server, and has `missing` units less than before. The spare `by`, if any, gives the rest.
    Short {
        r: u32,
        by: Option<u32>,
        missing: u32,
    },
    /// A server that served none failed.
    Idle,
    /// A server is up again, and serves none.
    Returned,
    /// The server was down already, or up already, and nothing changed.
    Stale,
}

/// One server of a pool.
#[derive(Clone, Copy, Debug)]
pub struct Standing {
    /// The reservation that it serves, or None.
    pub serves: Option<u32>,
    /// Whether it works.
    pub up: bool,
}
