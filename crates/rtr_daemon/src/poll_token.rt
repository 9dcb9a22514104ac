//! Poll tokens: the numbers of listeners and connections in poll events.
ghost use Rattle.std.specs.Prelude.{◌≡◌};
ghost use Rattle.rtr_daemon.specs.Opening.{token_of};

/// The poll token of the listener of the status pages. Smaller tokens are of listeners for routers, larger ones of connections.
pub const STATUS_TOKEN: usize = 65_535;

/// The poll token of the first router connection. Router connections have the tokens from here to below `FIRST_STATUS_CONNECTION`.
pub const FIRST_CONNECTION: usize = 65_536;

/// The poll token of the first connection of the status pages: 2^62. All router connections have smaller tokens.
pub const FIRST_STATUS_CONNECTION: usize = 4_611_686_018_427_387_904;

/// The listener or connection that a poll token belongs to.
#[derive(Clone, Copy, Debug, PartialEq, Eq)]
pub enum PollToken {
    /// The listener for routers of this index, from 0. The index is the token.
    Listener(usize),
    /// The listener of the status pages.
    StatusListener,
    /// The router connection of this token.
    Connection(usize),
    /// The connection of the status pages of this token.
    StatusConnection(usize),
}

impl PollToken {
    /// Returns the listener or connection that `token` belongs to. It only compares the token with the constants of this module.
    pub fn of(token: usize) -> PollToken
        ensures { result ≡ token_of token }
    {
        if token < STATUS_TOKEN {
            PollToken::Listener(token)
        } else if token < FIRST_CONNECTION {
            PollToken::StatusListener
        } else if token < FIRST_STATUS_CONNECTION {
            PollToken::Connection(token)
        } else {
            PollToken::StatusConnection(token)
        }
    }
}
