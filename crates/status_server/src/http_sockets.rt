//! The sockets of the endpoint.

/// What became ready.
#[derive(Clone, Copy, Debug, PartialEq, Eq)]
pub enum HttpReady {
    /// The listener: a connection may be pending.
    Listener,
    /// The connection with this poll token: it may be readable or writable.
    Connection(usize),
}

/// The result of an accept.
#[derive(Debug, Drop)]
pub enum HttpAccept<T> {
    /// A new connection. Its poll token has never been used for another one.
    Connection {
        /// The stream of the connection. It is non-blocking.
        stream: T,
        /// The poll token under which the connection is reported as ready.
        token: usize,
    },
    /// No connection is pending.
    WouldBlock,
    /// A connection was aborted, or could not be registered. Another connection may be pending.
    Again,
    /// The accept failed. The connection stays pending.
    Failed,
}

/// The sockets of an endpoint: the listener, and the connections, which are streams `T` with poll tokens.
pub trait HttpSockets<T> {
    /// Returns what became ready next. `None`: nothing more is ready.
    fn next(&mut self) -> Option<HttpReady>;

    /// Reports that `stream` is closed because `connections` connections are open. It was refused, or was closed for a newer one. It drops the
    /// stream.
    fn turn_away(&mut self, stream: T, connections: u64);

    /// Accepts a pending connection and registers it. [`HttpAccept`] lists the results.
    fn accept(&mut self) -> HttpAccept<T>;
}
