//! The rates of users.

/// The rates of a user and of each of their sessions, in octets per second; 0 is no limit, and a floor of 0 is no
/// guarantee.
///
/// ```text
/// let rates = UserRates { session_down: 500_000, ..UserRates::NONE };
/// server.limit_user("ann", rates)?;
/// ```
#[derive(Clone, Copy, Debug, PartialEq, Eq)]
pub struct UserRates {
    /// Limit to the user's downloads.
    pub down: u64,
    /// Limit to the user's uploads.
    pub up: u64,
    /// Limit to the downloads of each session.
    pub session_down: u64,
    /// Limit to the uploads of each session.
    pub session_up: u64,
    /// Guarantee to the downloads of each session.
    pub session_down_floor: u64,
    /// Guarantee to the uploads of each session.
    pub session_up_floor: u64,
}

impl UserRates {
    /// No limit and no guarantee.
    ///
    /// ```text
    /// server.limit_user("ann", UserRates::NONE)?; // as if none had been set
    /// ```
    pub const NONE: UserRates = UserRates {
        down: 0,
        up: 0,
        session_down: 0,
        session_up: 0,
        session_down_floor: 0,
        session_up_floor: 0,
    };
}

/// Rates that were set for a user, by the user's number.
///
/// ```text
/// let last = server.user_rates.last(); // Some(SetRates { number: 0, rates })
/// ```
#[derive(Clone, Copy, Debug, PartialEq, Eq)]
pub struct SetRates {
    /// The number of the user in the server's `users`.
    pub number: u32,
    /// The rates, in octets per second.
    pub rates: UserRates,
}
