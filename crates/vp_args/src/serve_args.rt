//! The arguments of `vp8 serve`.

ghost use Rattle.std.specs.Prelude.{◌<◌, ◌≤◌};

/// A stream's name and its file.
#[derive(Clone, Copy, Debug, PartialEq, Eq)]
pub struct NamedFile<'a> {
    /// The name.
    pub name: &'a str,
    /// The file, or `-` for standard input.
    pub file: &'a str,
}

/// The arguments of `vp8 serve`.
#[derive(Drop)]
pub struct ServeArgs<'a> {
    /// The address and the port to listen on.
    pub listen: &'a str,
    /// The number of connections to serve.
    pub connections: u32,
    /// The number of pictures to cache.
    pub cache: u32,
    /// Whether the address is printed.
    pub show_address: bool,
    /// Whether pictures are served as WebP files too.
    pub webp: bool,
    /// The streams.
    pub streams: Vec<NamedFile<'a>>,
    ghost cache_in_range: { 0 < cache × cache ≤ 4096 },
}

/// The arguments of `vp8 serve --max-connections`.
#[derive(Drop)]
pub struct ServeManyArgs<'a> {
    /// The address, the streams, and the number of connections to serve, which is 4,294,967,295 by default.
    pub service: ServeArgs<'a>,
    /// The most connections that are open at once.
    pub max_connections: u32,
    /// The seconds after which an idle connection is closed.
    pub idle_timeout: u32,
    /// Whether the files are read on as they grow.
    pub follow: bool,
    /// The milliseconds between two polls of the files.
    pub poll_interval: u32,
    /// The number of decoders that are kept at their places in streams.
    pub cursors: u32,
    /// Whether a line is printed for each request.
    pub access_log: bool,
    ghost connections_in_range: { 0 < max_connections × max_connections ≤ 64 },
    ghost timeout_in_range: { 0 < idle_timeout × idle_timeout ≤ 86400 },
    ghost interval_in_range: { 0 < poll_interval × poll_interval ≤ 60000 },
    ghost cursors_in_range: { cursors ≤ 64 },
}
