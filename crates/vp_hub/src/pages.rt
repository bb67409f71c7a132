//! The content of the pages.

ghost use Rattle.std.specs.Prelude.{◌≡◌, ◌≢◌, ◌≤◌, ◌⊎◌, ◌++◌, ℕ, List, codes, decimal, Some, IfOk, OnOk, OnErr};
ghost use Rattle.std.specs.Prelude.{option_map, slice_get};
ghost use Rattle.std.specs.String.{string_bytes};
ghost use Rattle.vp_y4m.specs.Text.{header_text};
ghost use Rattle.vp_stream.specs.Stream.{stream_refusal};
ghost use Rattle.vp_stream.specs.Stream.{Stream as StreamState};
ghost use Rattle.vp_stream.specs.Texts.{head_lines};
ghost use Rattle.vp_stream.specs.Seeking.{Shown, answer_at, answer_value, saturating_count};
ghost use Rattle.vp_cache.specs.Cache.{AreAnswersOf};
ghost use Rattle.vp_heads.specs.Replies.{Lines, reply_to};
ghost use Rattle.vp_hub.specs.Pages.{IsReply, IsContentOf, names_text, info_text, info_content, state_by};
ghost use Rattle.vp_hub.specs.Pages.{front_by, picture_by};
ghost use Rattle.vp_hub.specs.Stills.{IsStillFile, IsLongStill};
ghost use Rattle.vp_hub.specs.Forms.{IsPictureContent, Puts};
ghost use Rattle.vp_hub.specs.Hub.{AreKept, lent_source};
ghost use Rattle.vp_hub.specs.Work.{AreCursorsFor, HaveCursors, IsAfterRequest, IsAfterPicture, IsLeft, IsLeftPicture};
ghost use Rattle.vp_hub.specs.Work.{IsCost, IsMostCost, cost_of, picture_cost};

use crate::picture_cache::PictureCache;
use crate::source::{Source, StreamEnd};
use crate::streams::Streams;
use std::alloc::{AllocError, Global};
use vp_base::{ByteList, Dim};
use vp_heads::{
    Buffer, Request, Resource, Status, put_error, put_faulted, put_lines, put_pixels, put_webp,
};
use vp_ivf::IvfHead;
use vp_scale::Scale;
use vp_still::{ShownPacket, StillFault, webp_of};
use vp_stream::Answer;

// The quantiser index of the pictures that are encoded for WebP files.
const STILL_QUANTISER: u8 = 8;

/// Returns the names, each followed by a line feed.
fn names_lines(alloc: Global, names: &[ByteList]) -> Result<Buffer, AllocError>
    ensures { IfOk result (λ text. text ≡ names_text names.now) }
{
    let mut text = Buffer::new(alloc);
    for name in names {
        text.append(name.as_slice())?;
        text.push(b'\n')?;
    }
    Ok(text)
}

/// Returns the word for a stream's state: `open`, `ended`, or the name of its fault.
fn state_word(alloc: Global, source: &Source) -> Result<String, AllocError>
    ensures { IfOk result (λ r. string_bytes r ≡ state_by source.now.end (stream_refusal source.now.stream)) }
{
    match source.end {
        StreamEnd::Faulty(fault) => format!(in alloc; "{fault}"),
        StreamEnd::Good => format!(in alloc; "ended"),
        StreamEnd::Open => match source.stream.refusal() {
            Some(fault) => format!(in alloc; "{fault}"),
            None => format!(in alloc; "open"),
        },
    }
}

/// Returns the lines for a stream's head; none before it is whole and valid.
fn head_text(alloc: Global, head: Option<IvfHead>) -> Result<String, AllocError>
    ensures { IfOk result (λ r. string_bytes r ≡ head_lines head) }
{
    let Some(IvfHead { w, h, rate, scale }) = head else {
        return Ok(String::new(alloc));
    };
    format!(in alloc; "size {w}x{h}\nrate {rate}/{scale}\n")
}

fn info_lines(alloc: Global, state: &str, count: u32, head: &str) -> Result<String, AllocError>
    ensures { IfOk result (λ r. string_bytes r ≡ codes "state " ++ (state.now
        ++ (codes "\npackets " ++ (decimal count ++ (codes "\n" ++ head.now))))) }
{
    format!(in alloc; "state {state}\npackets {count}\n{head}")
}

/// Returns the information page of a stream.
#[tactic(auto, unfolding(crate::specs::Pages::info_text))]
fn info(alloc: Global, source: &Source) -> Result<String, AllocError>
    ensures { IfOk result (λ r. string_bytes r ≡ info_text source.now) }
{
    let state = state_word(alloc, source)?;
    let head = head_text(alloc, source.stream.head())?;
    info_lines(alloc, state.as_str(), source.stream.count(), head.as_str())
}

fn put_info(
    alloc: Global,
    request: Request,
    source: Option<&Source>,
    out: &mut Buffer,
) -> Result<(), AllocError>
    ensures { OnOk result (out.new ≡ out.old ++ reply_to request (info_content (lent_source source.entry))) }
{
    let Some(source) = source else {
        return put_error(alloc, request, Status::NotFound, out);
    };
    let text = info(alloc, source)?;
    put_lines(alloc, request, text.as_bytes(), out)
}

fn put_names(
    alloc: Global,
    request: Request,
    names: &[ByteList],
    out: &mut Buffer,
) -> Result<(), AllocError>
    ensures { OnOk result (out.new ≡ out.old ++ reply_to request (Lines (names_text names.now))) }
{
    let text = names_lines(alloc, names)?;
    put_lines(alloc, request, text.as_slice(), out)
}

/// Returns the header line of a YUV4MPEG2 file, and the line before its picture.
#[tactic(auto, unfolding(vp_y4m::specs::Text::header_text))]
fn video_front(alloc: Global, w: u16, h: u16, rate: u32, scale: u32) -> Result<String, AllocError>
    ensures { IfOk result (λ r. string_bytes r ≡ header_text w h rate scale ++ codes "FRAME\n") }
{
    format!(in alloc; "YUV4MPEG2 W{w} H{h} F{rate}:{scale} Ip A0:0 C420jpeg\nFRAME\n")
}

/// Returns the bytes before a picture's I420 pixels; none unless a YUV4MPEG2 file is requested.
fn front_text(
    alloc: Global,
    video: bool,
    head: Option<IvfHead>,
    dim: Dim,
) -> Result<String, AllocError>
    ensures { IfOk result (λ r. string_bytes r ≡ front_by video head dim.w dim.h) }
{
    if !video {
        return Ok(String::new(alloc));
    }
    match head {
        Some(head) => video_front(alloc, dim.w, dim.h, head.rate, head.scale),
        None => format!(in alloc; "FRAME\n"),
    }
}

/// The form in which a picture is shown.
#[derive(Clone, Copy)]
pub(crate) enum Form {
    /// As I420.
    Pixels,
    /// As a YUV4MPEG2 file.
    Video,
    /// As a WebP file, in its size or smaller.
    Still(Scale),
}

/// The picture that a request asks for: packet `n` of the stream at `place`, in a form.
#[derive(Clone, Copy)]
struct AskedPicture {
    place: usize,
    n: u32,
    form: Form,
}

/// Returns packet `n` of a stream with the picture that it shows.
fn shown_packet<'a>(source: &'a Source, n: u32, dim: Dim, pixels: &'a [u8]) -> ShownPacket<'a>
    requires { answer_at source.now.stream.limits source.now.stream.reading.packets n ≡ Shown dim.w dim.h pixels.now }
    ensures packet { option_map (λ p. p.bytes) (slice_get source.now.stream.reading.packets n)
        ≡ Some result.packet.now }
    ensures dim { result.dim ≡ dim }
    ensures pixels { result.pixels.now ≡ pixels.now }
{
    let Some(packet) = source.stream.packet(n) else {
        unreachable!();
    };
    ShownPacket {
        packet: packet.bytes.as_slice(),
        dim,
        pixels,
    }
}

/// Appends the response with the WebP file of a picture. If its key frame is too long, the response says so as for a
/// packet with a fault.
fn put_still(
    alloc: Global,
    request: Request,
    shown: ShownPacket<'_>,
    scale: Scale,
    out: &mut Buffer,
) -> Result<(), AllocError>
    ensures { OnOk result (Puts
        (λ c. IsStillFile scale shown.entry.packet.now shown.entry.dim.w shown.entry.dim.h shown.entry.pixels.now c
        ⊎ IsLongStill scale shown.entry.packet.now shown.entry.dim.w shown.entry.dim.h shown.entry.pixels.now c)
        request out.old out.new) }
{
    match webp_of(alloc, shown, scale, STILL_QUANTISER) {
        Ok(still) => put_webp(alloc, request, still.file.as_slice(), out),
        Err(StillFault::TooLong) => put_faulted(alloc, request, "TooLong", out),
        Err(StillFault::Memory) => Err(AllocError),
    }
}

/// Appends the response with the I420 pixels of a picture, or its YUV4MPEG2 file.
fn put_plain(
    alloc: Global,
    request: Request,
    video: bool,
    head: Option<IvfHead>,
    dim: Dim,
    pixels: &[u8],
    out: &mut Buffer,
) -> Result<(), AllocError>
    ensures { OnOk result (out.new ≡ out.old ++ reply_to request
        (picture_by video head (Shown dim.w dim.h pixels.now))) }
{
    let front = front_text(alloc, video, head, dim)?;
    put_pixels(alloc, request, front.as_bytes(), pixels, out)
}

/// Appends the response with the picture that packet `n` of a stream shows.
fn put_shown(
    alloc: Global,
    request: Request,
    source: &Source,
    asked: AskedPicture,
    dim: Dim,
    pixels: &[u8],
    out: &mut Buffer,
) -> Result<(), AllocError>
    requires { answer_at source.now.stream.limits source.now.stream.reading.packets asked.n
        ≡ Shown dim.w dim.h pixels.now }
    ensures { OnOk result (Puts (IsPictureContent asked.form (Some source.now) asked.n) request out.old out.new) }
{
    let head = source.stream.head();
    match asked.form {
        Form::Pixels => put_plain(alloc, request, false, head, dim, pixels, out),
        Form::Video => put_plain(alloc, request, true, head, dim, pixels, out),
        Form::Still(scale) => {
            let shown = shown_packet(source, asked.n, dim, pixels);
            put_still(alloc, request, shown, scale, out)
        }
    }
}

/// Appends the response for packet `n` of a stream, given its answer.
fn put_answer(
    alloc: Global,
    request: Request,
    source: &Source,
    asked: AskedPicture,
    answer: &Answer,
    out: &mut Buffer,
) -> Result<(), AllocError>
    requires { answer_at source.now.stream.limits source.now.stream.reading.packets asked.n ≡ answer_value answer.now }
    ensures { OnOk result (Puts (IsPictureContent asked.form (Some source.now) asked.n) request out.old out.new) }
{
    match answer {
        Answer::Shown(dim, pixels) => {
            put_shown(alloc, request, source, asked, *dim, pixels.as_slice(), out)
        }
        Answer::Fault(fault) => {
            let name = format!(in alloc; "{fault}")?;
            put_faulted(alloc, request, name.as_str(), out)
        }
        Answer::Hidden => put_error(alloc, request, Status::NotFound, out),
        Answer::NoPacket => put_error(alloc, request, Status::NotFound, out),
    }
}

/// Appends the response for packet `n` of a stream. A cached picture is borrowed, not copied.
fn put_picture(
    alloc: Global,
    source: &Source,
    pictures: &mut PictureCache,
    request: Request,
    asked: AskedPicture,
    out: &mut Buffer,
) -> Result<(), AllocError>
    requires kept { AreAnswersOf asked.place source.now.stream pictures.old.kept.cache.entries }
    requires cursors { AreCursorsFor asked.place source.now.stream pictures.old.kept.cursors }
    ensures content { OnOk result (Puts (IsPictureContent asked.form (Some source.now) asked.n)
        request out.old out.new) }
    ensures work { OnOk result (pictures.new.work ≡ saturating_count pictures.old.work
        (picture_cost (Some source.now) asked.place asked.n pictures.old.kept)) }
    ensures most { OnErr result ((pictures.old.work ≤ pictures.new.work)
        × (pictures.new.work ≤ saturating_count pictures.old.work
        (picture_cost (Some source.now) asked.place asked.n pictures.old.kept))) }
    ensures after { OnOk result (IsAfterPicture
        (Some source.now) asked.place asked.n pictures.old.kept pictures.new.kept) }
    ensures left { OnErr result (IsLeftPicture
        (Some source.now) asked.place asked.n pictures.old.kept pictures.new.kept) }
    ensures kept { AreAnswersOf asked.place source.now.stream pictures.new.kept.cache.entries }
    ensures cursors { AreCursorsFor asked.place source.now.stream pictures.new.kept.cursors }
    ensures others { (other : ℕ) (s : StreamState) → other ≢ asked.place →
        AreAnswersOf other s pictures.old.kept.cache.entries → AreAnswersOf other s pictures.new.kept.cache.entries }
    ensures cursors_of_others { (other : ℕ) (s : StreamState) → other ≢ asked.place →
        AreCursorsFor other s pictures.old.kept.cursors → AreCursorsFor other s pictures.new.kept.cursors }
{
    let _known = pictures.work;
    let AskedPicture { place, n, .. } = asked;
    if let Some(kept) = pictures.kept.cache.cached(place, n) {
        put_shown(
            alloc,
            request,
            source,
            asked,
            kept.dim(),
            kept.as_slice(),
            out,
        )?;
        pictures.kept.cache.promote(place, n);
        return Ok(());
    }
    let answer = pictures.kept.cache.picture_from(
        &mut pictures.kept.cursors,
        place,
        &source.stream,
        n,
        &mut pictures.work,
    )?;
    put_answer(alloc, request, source, asked, &answer, out)
}

/// Appends the response for packet `n` of the stream at a place, which may not exist.
fn put_picture_of(
    alloc: Global,
    streams: &Streams,
    pictures: &mut PictureCache,
    request: Request,
    asked: AskedPicture,
    out: &mut Buffer,
) -> Result<(), AllocError>
    requires kept { AreKept streams.now.sources pictures.old.kept.cache.entries }
    requires cursors { HaveCursors streams.now.sources pictures.old.kept.cursors }
    ensures content { OnOk result (Puts
        (IsPictureContent asked.form (slice_get streams.now.sources asked.place) asked.n) request out.old out.new) }
    ensures work { OnOk result (pictures.new.work ≡ saturating_count pictures.old.work
        (picture_cost (slice_get streams.now.sources asked.place) asked.place asked.n pictures.old.kept)) }
    ensures most { OnErr result ((pictures.old.work ≤ pictures.new.work)
        × (pictures.new.work ≤ saturating_count pictures.old.work
        (picture_cost (slice_get streams.now.sources asked.place) asked.place asked.n pictures.old.kept))) }
    ensures after { OnOk result (IsAfterPicture
        (slice_get streams.now.sources asked.place) asked.place asked.n pictures.old.kept pictures.new.kept) }
    ensures left { OnErr result (IsLeftPicture
        (slice_get streams.now.sources asked.place) asked.place asked.n pictures.old.kept pictures.new.kept) }
    ensures kept { AreKept streams.now.sources pictures.new.kept.cache.entries }
    ensures cursors { HaveCursors streams.now.sources pictures.new.kept.cursors }
{
    let _known = pictures.work;
    match streams.source(asked.place) {
        Some(source) => put_picture(alloc, source, pictures, request, asked, out),
        None => put_error(alloc, request, Status::NotFound, out),
    }
}

/// Appends the response to a request.
fn put_content(
    alloc: Global,
    streams: &Streams,
    pictures: &mut PictureCache,
    request: Request,
    out: &mut Buffer,
) -> Result<(), AllocError>
    requires kept { AreKept streams.now.sources pictures.old.kept.cache.entries }
    requires cursors { HaveCursors streams.now.sources pictures.old.kept.cursors }
    ensures content { OnOk result (Puts (IsContentOf streams.now request.wanted) request out.old out.new) }
    ensures work { OnOk result (pictures.new.work ≡ saturating_count pictures.old.work
        (cost_of streams.now request.wanted pictures.old.kept)) }
    ensures most { OnErr result ((pictures.old.work ≤ pictures.new.work)
        × (pictures.new.work ≤ saturating_count pictures.old.work
        (cost_of streams.now request.wanted pictures.old.kept))) }
    ensures after { OnOk result (IsAfterRequest streams.now request.wanted pictures.old.kept pictures.new.kept) }
    ensures left { OnErr result (IsLeft streams.now request.wanted pictures.old.kept pictures.new.kept) }
    ensures kept { AreKept streams.now.sources pictures.new.kept.cache.entries }
    ensures cursors { HaveCursors streams.now.sources pictures.new.kept.cursors }
{
    let _known = pictures.work;
    match request.wanted {
        Resource::Bad => put_error(alloc, request, Status::BadRequest, out),
        Resource::WrongMethod => put_error(alloc, request, Status::MethodNotAllowed, out),
        Resource::Missing => put_error(alloc, request, Status::NotFound, out),
        Resource::Streams => put_names(alloc, request, streams.names(), out),
        Resource::Info(place) => put_info(alloc, request, streams.source(place), out),
        Resource::Frame(place, n) => {
            let form = Form::Pixels;
            let asked = AskedPicture { place, n, form };
            put_picture_of(alloc, streams, pictures, request, asked, out)
        }
        Resource::Video(place, n) => {
            let form = Form::Video;
            let asked = AskedPicture { place, n, form };
            put_picture_of(alloc, streams, pictures, request, asked, out)
        }
        Resource::Still(place, n, scale) => {
            let form = Form::Still(scale);
            let asked = AskedPicture { place, n, form };
            put_picture_of(alloc, streams, pictures, request, asked, out)
        }
    }
}

/// Appends the response to a request head, and returns whether it closes the connection.
#[tactic(auto, unfolding(crate::specs::Pages::IsReply))]
pub(crate) fn put_reply(
    alloc: Global,
    streams: &Streams,
    pictures: &mut PictureCache,
    head: &[u8],
    out: &mut Buffer,
) -> Result<bool, AllocError>
    requires kept { AreKept streams.now.sources pictures.old.kept.cache.entries }
    requires cursors { HaveCursors streams.now.sources pictures.old.kept.cursors }
    ensures reply { IfOk result (λ close. (bytes : List ℕ) × IsReply streams.now head.now (bytes, close)
        × (out.new ≡ out.old ++ bytes)) }
    ensures work { OnOk result ((cost : ℕ) × IsCost streams.now head.now pictures.old.kept pictures.new.kept cost
        × (pictures.new.work ≡ saturating_count pictures.old.work cost)) }
    ensures most { OnErr result ((cost : ℕ) × IsMostCost streams.now head.now pictures.old.kept pictures.new.kept cost
        × (pictures.old.work ≤ pictures.new.work) × (pictures.new.work ≤ saturating_count pictures.old.work cost)) }
    ensures kept { AreKept streams.now.sources pictures.new.kept.cache.entries }
    ensures cursors { HaveCursors streams.now.sources pictures.new.kept.cursors }
{
    let request = streams.read(head);
    put_content(alloc, streams, pictures, request, out)?;
    Ok(request.closing)
}
