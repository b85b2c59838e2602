use thiserror::Error;

/// Why requests are refused. At each place the first fault that holds is told: for the whole in the order NotJson,
/// Shape, Format, Range, Many, and for a reservation Shape, Range, Many, Twice.
#[derive(Clone, Copy, Debug, Error)]
pub enum RequestsWhy {
    /// The bytes are no JSON.
    #[error("not json")]
    NotJson,
    /// A part has another shape, or a number is no whole number.
    #[error("shape")]
    Shape,
    /// The format is neither 1 nor 2.
    #[error("format")]
    Format,
    /// A number is too large, or a protection is none of the three texts.
    #[error("range")]
    Range,
    /// The name stood before, or a datacenter stands twice in `near`.
    #[error("twice")]
    Twice,
    /// There are over 64 reservations, 1,000 values or 16 entries of `near`.
    #[error("many")]
    Many,
}

/// Why requests are refused, and where.
#[derive(Clone, Copy, Debug, Error)]
pub enum RequestsFault {
    /// The first place with a fault, and its first fault: place 0 is the whole file, place n its n-th reservation.
    #[error("place {place}: {why}")]
    At { place: u32, why: RequestsWhy },
    /// Memory ran out.
    #[error("out of memory")]
    Memory,
}
