//! A macro that chains operations.

/// Chains operations that answer None where a number does not fit, and stops at the first None.
///
/// `fits!(change = factor.mul(share); cell.sub(change))` is the last operation's answer, or None where an earlier one is None.
/// Each name stands for what its operation gave, in the operations after it.
#[macro_export]
macro_rules! fits {
    ($name:ident = $operation:expr; $($later:tt)+) => {
        match $operation {
            Some($name) => $crate::fits!($($later)+),
            None => None,
        }
    };
    ($last:expr) => {
        $last
    };
}
