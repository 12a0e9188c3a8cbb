//! Ends of connections.

/// An end of a connection: a log, and the number that its vat gave the connection.
#[derive(Clone, Copy, Debug, PartialEq, Eq)]
pub struct LogEnd {
    /// The log's place in the list of logs, counted from 0.
    pub log: usize,
    /// The connection's number in that log.
    pub connection: u32,
}

/// Both ends of one connection.
#[derive(Clone, Copy, Debug, PartialEq, Eq)]
pub struct EndPair {
    /// The end that comes first: by the order of the logs, and then by the connections' numbers.
    pub first: LogEnd,
    /// The other end.
    pub second: LogEnd,
}
