//! The picture of an IVF file.

ghost use Rattle.std.specs.Prelude.{◌≡◌, ◌⊎◌, length, IfOk, IfErr, OnOk};
ghost use Rattle.vp_ivf.specs.Reader.{finish_answer};
ghost use Rattle.vp_stream.specs.Stream.{initial_stream};
ghost use Rattle.vp_stream.specs.Answers.{reading_of};
ghost use Rattle.vp_stream.specs.Seeking.{Shown, answer_at};
ghost use Rattle.vp_stream.specs.Cursor.{IsCursorOf};
ghost use Rattle.vp_still.specs.declared.fault.FindFault.{FindFault};
ghost use Rattle.vp_still.specs.Found.{IsFoundInIvf, IsShownAt, IsUnshown, IsWanted};
ghost use Rattle.vp_still.specs.Faults.{IsFaultOfIvf, missing};
ghost use Rattle.vp_still.specs.Shown.{IsFoundFor};

use crate::fault::FindFault;
use crate::found::Found;
use std::alloc::{AllocError, Global};
use vp_base::{ByteList, Dim, Limits};
use vp_ivf::{FeedError, FileFault};
use vp_stream::{Answer, Cursor, Stream};

/// Finds a picture of an IVF file: that of the packet with this number, counted from 0, or the first that is shown. The
/// packets before a fault of the file count.
///
/// Errors: `Hidden` or `Packet` if the packet with this number shows no picture. If there is no such packet, `File`
/// with the file's fault, or `NoPacket` if the file has none; if no packet shows a picture, `File` or `NoPicture`.
/// `Memory`.
pub fn find_in_ivf(
    alloc: Global,
    file: &[u8],
    wanted: Option<u32>,
    limits: Limits,
) -> Result<Found, FindFault>
    ensures found { IfOk result (IsFoundInIvf limits file.now wanted) }
    ensures fault { IfErr result (λ e. (e ≡ FindFault.Memory)
        ⊎ IsFaultOfIvf limits (reading_of limits file.now) wanted e) }
{
    let mut stream = Stream::new(alloc, limits);
    let Ok(()) = fill(&mut stream, file) else {
        return Err(FindFault::Memory);
    };
    let ending = stream.finish();
    match wanted {
        Some(number) => numbered(alloc, &stream, number, ending),
        None => first_shown(alloc, &stream, limits, ending),
    }
}

// Feeds a whole file to a new stream.
fn fill(stream: &mut Stream, file: &[u8]) -> Result<(), AllocError>
    requires { stream.old ≡ initial_stream stream.old.limits }
    ensures limits { stream.new.limits ≡ stream.old.limits }
    ensures reading { OnOk result (stream.new.reading ≡ reading_of stream.old.limits file.now) }
{
    match stream.feed(file) {
        Ok(()) | Err(FeedError::Fault(_)) => Ok(()),
        Err(FeedError::Memory) => Err(AllocError),
    }
}

// The fault of a file without the wanted picture: its own, or else this one.
fn missing(ending: Result<(), FileFault>, other: FindFault) -> FindFault
    ensures { result ≡ missing ending other }
{
    match ending {
        Ok(()) => other,
        Err(fault) => FindFault::File(fault),
    }
}

// The picture of the packet with this number.
fn numbered(
    alloc: Global,
    stream: &Stream,
    number: u32,
    ending: Result<(), FileFault>,
) -> Result<Found, FindFault>
    requires { ending ≡ finish_answer stream.now.reading }
    ensures shown { IfOk result (IsShownAt stream.now.limits stream.now.reading.packets) }
    ensures number { IfOk result (λ f. f.number ≡ number) }
    ensures fault { IfErr result (λ e. (e ≡ FindFault.Memory)
        ⊎ IsFaultOfIvf stream.now.limits stream.now.reading (Some number) e) }
{
    match stream.picture_at(number)? {
        Answer::Shown(dim, pixels) => Ok(found_at(alloc, stream, number, dim, pixels)?),
        Answer::Hidden => Err(FindFault::Hidden),
        Answer::Fault(fault) => Err(FindFault::Packet(fault)),
        Answer::NoPacket => Err(missing(ending, FindFault::NoPacket(stream.count()))),
    }
}

// The first picture that is shown.
fn first_shown(
    alloc: Global,
    stream: &Stream,
    limits: Limits,
    ending: Result<(), FileFault>,
) -> Result<Found, FindFault>
    requires limits { stream.now.limits ≡ limits }
    requires ending { ending ≡ finish_answer stream.now.reading }
    ensures shown { IfOk result (IsShownAt stream.now.limits stream.now.reading.packets) }
    ensures first { IfOk result (λ f. IsWanted stream.now.limits stream.now.reading.packets None f.number) }
    ensures fault { IfErr result (λ e. (e ≡ FindFault.Memory)
        ⊎ IsFaultOfIvf stream.now.limits stream.now.reading None e) }
{
    let mut cursor = Cursor::new(alloc, limits);
    for number in 0..stream.count() {
        if let Some(found) = found_if_shown(alloc, stream, number, &mut cursor)? {
            return Ok(found);
        }
    }
    Err(missing(ending, FindFault::NoPicture(stream.count())))
}

// The picture of a packet, decoded with a cursor, if it shows one.
fn found_if_shown(
    alloc: Global,
    stream: &Stream,
    number: u32,
    cursor: &mut Cursor,
) -> Result<Option<Found>, AllocError>
    requires { IsCursorOf cursor.old stream.now }
    ensures cursor { OnOk result (IsCursorOf cursor.new stream.now) }
    ensures found { IfOk result (IsFoundFor stream.now.limits stream.now.reading.packets number) }
{
    let mut work = 0;
    match stream.picture_from(number, cursor, &mut work)? {
        Answer::Shown(dim, pixels) => Ok(Some(found_at(alloc, stream, number, dim, pixels)?)),
        Answer::Hidden | Answer::Fault(_) | Answer::NoPacket => Ok(None),
    }
}

// A picture, with the packet that shows it.
fn found_at(
    alloc: Global,
    stream: &Stream,
    number: u32,
    dim: Dim,
    pixels: ByteList,
) -> Result<Found, AllocError>
    requires { answer_at stream.now.limits stream.now.reading.packets number ≡ Shown dim.w dim.h pixels }
    ensures shown { IfOk result (IsShownAt stream.now.limits stream.now.reading.packets) }
    ensures number { IfOk result (λ f. f.number ≡ number) }
{
    let Some(packet) = stream.packet(number) else {
        unreachable!();
    };
    let bytes = Vec::from_slice(alloc, packet.bytes.as_slice())?;
    Ok(Found {
        number,
        packet: ByteList::from_vec(bytes),
        dim,
        pixels,
        has_alpha: false,
    })
}
