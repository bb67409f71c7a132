//! Kinds of files, by their first bytes.

ghost use Rattle.std.specs.Prelude.{◌≡◌, Some};
ghost use Rattle.vp_hints.specs.Kinds.{container_marks, image_marks, kind_in, kind_name, kind_of, stands_at};
ghost use Rattle.vp_hints.specs.Kinds.{video_marks};
ghost use Rattle.vp_hints.specs.declared.kinds.FileKind.{FileKind};

use std::fmt;

/// A kind of file.
#[derive(Clone, Copy, Debug, PartialEq, Eq)]
pub enum FileKind {
    /// No byte at all.
    Empty,
    /// IVF.
    Ivf,
    /// WebM or Matroska.
    WebM,
    /// MP4 or QuickTime.
    Mp4,
    /// AVI.
    Avi,
    /// WebP.
    WebP,
    /// YUV4MPEG2.
    Y4m,
    /// Ogg.
    Ogg,
    /// H.264 in the form of its Annex B.
    H264,
    /// PNG.
    Png,
    /// JPEG.
    Jpeg,
    /// GIF.
    Gif,
    /// None of these.
    Unknown,
}

/// Writes the kind's name.
impl fmt::Display for FileKind {
    ghost output = { λ kind. Some (kind_name kind) };

    fn fmt<W: fmt::Write>(&self, f: &mut fmt::Formatter<W>) -> fmt::Result {
        f.write_str(match self {
            FileKind::Empty => "empty",
            FileKind::Ivf => "IVF",
            FileKind::WebM => "WebM",
            FileKind::Mp4 => "MP4",
            FileKind::Avi => "AVI",
            FileKind::WebP => "WebP",
            FileKind::Y4m => "YUV4MPEG2",
            FileKind::Ogg => "Ogg",
            FileKind::H264 => "H.264",
            FileKind::Png => "PNG",
            FileKind::Jpeg => "JPEG",
            FileKind::Gif => "GIF",
            FileKind::Unknown => "unknown",
        })
    }
}

/// Returns the kind of a file that begins with these bytes.
pub fn kind_of(head: &[u8]) -> FileKind
    ensures { result ≡ kind_of head.now }
{
    if head.is_empty() {
        return FileKind::Empty;
    }
    container_kind(head, video_kind(head, image_kind(head)))
}

// Returns the kind of a container, or else the other kind.
fn container_kind(head: &[u8], other: FileKind) -> FileKind
    ensures { result ≡ kind_in container_marks other head.now }
{
    if stands_at(head, 0, b"DKIF") {
        FileKind::Ivf
    } else if stands_at(head, 0, b"\x1a\x45\xdf\xa3") {
        FileKind::WebM
    } else if stands_at(head, 4, b"ftyp") {
        FileKind::Mp4
    } else if stands_at(head, 8, b"AVI ") {
        FileKind::Avi
    } else {
        other
    }
}

// Returns the kind of a video, or else the other kind.
fn video_kind(head: &[u8], other: FileKind) -> FileKind
    ensures { result ≡ kind_in video_marks other head.now }
{
    if stands_at(head, 0, b"YUV4MPEG2") {
        FileKind::Y4m
    } else if stands_at(head, 0, b"OggS") {
        FileKind::Ogg
    } else if stands_at(head, 0, b"\x00\x00\x00\x01") {
        FileKind::H264
    } else {
        other
    }
}

// Returns the kind of an image.
fn image_kind(head: &[u8]) -> FileKind
    ensures { result ≡ kind_in image_marks FileKind.Unknown head.now }
{
    if stands_at(head, 8, b"WEBP") {
        FileKind::WebP
    } else if stands_at(head, 0, b"\x89PNG") {
        FileKind::Png
    } else if stands_at(head, 0, b"\xff\xd8\xff") {
        FileKind::Jpeg
    } else if stands_at(head, 0, b"GIF8") {
        FileKind::Gif
    } else {
        FileKind::Unknown
    }
}

// Whether the bytes have this word at this place.
fn stands_at(head: &[u8], place: usize, word: &[u8]) -> bool
    ensures { result ≡ stands_at head.now place word.now }
{
    head.split_at(place.min(head.len())).1.starts_with(word)
}
