//! What the server is limited to, and a piece of a file on its way to the hub.

use vp_base::ByteList;

/// What the server is limited to.
#[derive(Clone, Copy, Debug, PartialEq, Eq)]
pub struct ServeOptions {
    /// The most connections that are open at once.
    pub max_connections: usize,
    /// The number of connections that are accepted before the server ends.
    pub total_connections: u32,
    /// The milliseconds without a reply and without a byte written after which a connection is closed.
    pub idle_timeout: u64,
    /// The milliseconds between two polls of the files.
    pub poll_interval: u64,
}

/// Bytes that were read from a file and are to be fed to its stream.
#[derive(Debug, Drop)]
pub struct FilePiece {
    /// The index of the file among those that are followed.
    pub place: usize,
    /// The name of the stream.
    pub name: ByteList,
    /// The bytes.
    pub bytes: ByteList,
}
