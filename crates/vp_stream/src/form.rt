//! The output formats for pictures.

/// The output format of decoded pictures.
#[derive(Clone, Copy, Debug, PartialEq, Eq)]
pub enum Form {
    /// The pixels of each picture as I420: Y, U, V, each plane by rows. Pictures follow each other without headers.
    I420,
    /// YUV4MPEG2: a header line with the first picture's size and the file's rate, then a line and the I420 pixels for
    /// each picture. All pictures have one size.
    Y4m,
}
