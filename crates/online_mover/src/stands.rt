use plan_model::Holder;

/// Where a server stands: nobody has it, it is on its way to a reservation, its holder has it, or its holder gives it up.
/// A holder here is a reservation, or one that the requests do not name.
#[derive(Clone, Copy, Debug, PartialEq, Eq)]
pub enum Stand {
    /// Nobody has it.
    Free,
    /// It was told to join the reservation with this number, and has not answered yet.
    Joining(u32),
    /// This holder has it.
    Bound(Holder),
    /// It was told to leave this holder, and has not answered yet.
    Draining(Holder),
}

/// What happened: time for another try, an answer of one server, or its going down or up.
#[derive(Clone, Copy, Debug, PartialEq, Eq)]
pub enum Event {
    /// Servers that wait may be told again.
    Tick,
    /// The server left its holder.
    Drained(u32),
    /// The server stays with the holder that it was to leave.
    Refused(u32),
    /// The server joined its reservation.
    Joined(u32),
    /// The server did not join its reservation.
    JoinFailed(u32),
    /// The server went down.
    Down(u32),
    /// The server came up.
    Up(u32),
}

/// What a server is told to do.
#[derive(Clone, Copy, Debug, PartialEq, Eq)]
pub enum Command {
    /// Leave the holder.
    Drain { server: u32 },
    /// Join the reservation with the number `to`.
    Bind { server: u32, to: u32 },
}

/// Whether an event was lawful.
#[derive(Clone, Copy, Debug, PartialEq, Eq)]
pub enum Taken {
    /// It was lawful, and its change was made.
    Taken,
    /// It was not lawful, and changed nothing.
    Stale,
}

/// Why a server does not yet stand as its target says.
#[derive(Clone, Copy, Debug, PartialEq, Eq)]
pub enum Cause {
    /// It is down.
    Down,
    /// It waits for the next tick.
    Waiting,
    /// As many servers as may be are in flight.
    Full,
    /// Without it the reservation with this number would not be protected.
    Unsafe(u32),
    /// It can be told now. No server is ready after a step that took its event.
    Ready,
}

/// One server of a mover.
#[derive(Clone, Copy, Debug)]
pub struct Server {
    pub stand: Stand,
    pub up: bool,
    /// Whether it waits for the next tick, since it refused or failed to join.
    pub waits: bool,
    /// The reservation that it is to have, or None.
    pub target: Option<u32>,
}
