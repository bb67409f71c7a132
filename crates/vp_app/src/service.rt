//! The command `vp8 serve`: feeds files into a hub, and then serves connections, one after another.

ghost use Rattle.std.specs.Prelude.{◌≡◌, ◌≢◌, ◌↔◌, ℕ, List, Option, Ok, Err, IfOk, IfErr, false};
ghost use Rattle.std.specs.IoError.{error_kind};
ghost use Rattle.std.specs.declared.io.ErrorKind.{ErrorKind};
ghost use Rattle.std.specs.Io.KnownBytes.{Consumes};
ghost use Rattle.vp_base.specs.Counted.{counted_remaining};
ghost use Rattle.vp_hub.specs.declared.event.Event.{Event};
ghost use Rattle.vp_hub.specs.declared.event.Reply.{Reply};
ghost use Rattle.vp_cache.specs.Cache.{empty};
ghost use Rattle.vp_cache.specs.Cursors.{no_cursors};
ghost use Rattle.vp_hub.specs.declared.names.NewFault.{NewFault};
ghost use Rattle.vp_hub.specs.Hub.{HubState, IsStep, Outcome, new_hub_state, stream_limits};
ghost use Rattle.vp_hub.specs.Names.{are_names};
ghost use Rattle.vp_hub.specs.View.{is_memory as hub_is_memory};
ghost use Rattle.vp_app.specs.declared.service.ServiceFault.{ServiceFault};
ghost use Rattle.vp_commands.specs.Commands.{read_side};
ghost use Rattle.vp_app.specs.Program.{ServesConnections};
ghost use Rattle.vp_app.specs.Feeding.{FeedsPiece, IsFed};
ghost use Rattle.vp_app.specs.Serving.{AreFilesFed, IsFileFed, IsNewHub, IsServed, IsServing, names_of};

use crate::hints::{hint_connection, hint_odd_files};
use std::alloc::{AllocError, Global};
use std::io::{Read, Write};
use std::net::{Net, Shutdown, TcpListener, TcpStream};
use std::rt::Files;
use std::time::Duration;
use std::{fmt, io};
use vp_args::{NamedFile, ServeArgs};
use vp_base::{ByteList, Counted, Limits};
use vp_commands::{Outside, file_fault};
use vp_hints::Meter;
use vp_hub::{Event, Hub, HubFault, NewFault, ServeFault, serve_one};

/// The reasons for which nothing is served.
#[derive(Clone, Copy, Debug, PartialEq, Eq)]
pub enum ServiceFault {
    /// The names are not valid names for streams.
    Names,
    /// A file can't be opened or read, or the program can't listen on the address or print it.
    Device,
    /// A file did not end within 4,294,967,295 reads.
    ReadTurns,
    /// Out of memory.
    Memory,
}

/// Writes the fault's name.
impl fmt::Display for ServiceFault {
    fn fmt<W: fmt::Write>(&self, f: &mut fmt::Formatter<W>) -> fmt::Result {
        f.write_str(match self {
            ServiceFault::Names => "Names",
            ServiceFault::Device => "Device",
            ServiceFault::ReadTurns => "ReadTurns",
            ServiceFault::Memory => "Memory",
        })
    }
}

impl From<AllocError> for ServiceFault {
    ghost from_gives = { λ _ fault. fault ≡ ServiceFault.Memory };

    fn from(_: AllocError) -> ServiceFault {
        ServiceFault::Memory
    }
}

impl From<io::Error> for ServiceFault {
    ghost from_gives = { λ error fault.
        (error_kind error ≡ ErrorKind.OutOfMemory → fault ≡ ServiceFault.Memory)
        × (error_kind error ≢ ErrorKind.OutOfMemory → fault ≡ ServiceFault.Device) };

    fn from(error: io::Error) -> ServiceFault {
        file_fault(&error, ServiceFault::Device, ServiceFault::Memory)
    }
}

/// Feeds each file to its end or its fault, and then serves the given number of connections. If that is 0, it doesn't
/// listen. Returns whether each connection was served to its end; the faults of the others are printed on `errors`.
pub(crate) fn serve<
    H: Files + AllocGlobal + Net<Stream = TcpStream, Listener = TcpListener>,
    R: Read,
    W: Write,
    E: Write,
>(
    outside: &mut Outside<'_, H>,
    service: &ServeArgs<'_>,
    input: &mut Counted<R>,
    output: &mut Counted<W>,
    errors: &mut Counted<E>,
) -> Result<bool, ServiceFault>
    ensures served { ServesConnections service.now result (read_side R.remaining input.old)
        (read_side R.remaining input.new) }

    // Nothing is printed unless the address is asked for.
    ensures quiet { service.now.show_address ≡ false → output.new ≡ output.old }
{
    match new_hub(outside.alloc(), service) {
        Ok(mut hub) => serve_over(outside, &mut hub, service, input, output, errors),
        Err(fault) => Err(fault),
    }
}

// Feeds the files and serves the connections, as `serve` does, with a new hub.
fn serve_over<
    H: Files + AllocGlobal + Net<Stream = TcpStream, Listener = TcpListener>,
    R: Read,
    W: Write,
    E: Write,
>(
    outside: &mut Outside<'_, H>,
    hub: &mut Hub,
    service: &ServeArgs<'_>,
    input: &mut Counted<R>,
    output: &mut Counted<W>,
    errors: &mut Counted<E>,
) -> Result<bool, ServiceFault>
    ensures served { IfOk result (λ well. (fed : HubState) × AreFilesFed service.now.streams.items hub.old.state fed
        (counted_remaining R.remaining input.old) (counted_remaining R.remaining input.new)
        × IsServing service.now.connections fed well) }
    ensures quiet { service.now.show_address ≡ false → output.new ≡ output.old }
{
    feed_each(outside, hub, &service.streams, input)?;
    hint_odd_files(outside, service, errors);
    if service.connections == 0 {
        return Ok(true);
    }
    let listener = listen_on(outside, service, output)?;
    Ok(serve_each(hub, &listener, service.connections, errors))
}

/// Listens on the address, and prints it if that is asked for.
pub fn listen<H: AllocGlobal + Net<Stream = TcpStream, Listener = TcpListener>, W: Write>(
    rt: &H,
    service: &ServeArgs<'_>,
    output: &mut Counted<W>,
) -> Result<TcpListener, ServiceFault>
    ensures quiet { service.now.show_address ≡ false → output.new ≡ output.old }
    ensures names { result ≢ Err ServiceFault.Names }
{
    let meter = Meter::new(rt);
    listen_on(&mut Outside::new(rt, &meter), service, output)
}

// Listens on the address, and prints it if that is asked for. Remembers why the address is refused.
fn listen_on<H: AllocGlobal + Net<Stream = TcpStream, Listener = TcpListener>, W: Write>(
    outside: &mut Outside<'_, H>,
    service: &ServeArgs<'_>,
    output: &mut Counted<W>,
) -> Result<TcpListener, ServiceFault>
    ensures quiet { service.now.show_address ≡ false → output.new ≡ output.old }
    ensures names { result ≢ Err ServiceFault.Names }
{
    let listener = outside.listen(service.listen)?;
    if service.show_address {
        print_address(&listener, output)?;
    }
    Ok(listener)
}

pub(crate) fn print_address<W: Write>(
    listener: &TcpListener,
    output: &mut Counted<W>,
) -> io::Result<()> {
    let address = listener.local_addr()?;
    writeln!(output, "{address}")?;
    output.flush()
}

/// Creates a hub for the streams, without bytes and without cursors. It shows WebP files if that is asked for.
pub fn new_hub(alloc: Global, service: &ServeArgs<'_>) -> Result<Hub, ServiceFault>
    ensures hub { IfOk result (λ hub. IsNewHub service.now.webp service.now.streams.items service.now.cache 0 hub) }
    ensures names { result ≡ Err ServiceFault.Names → are_names (names_of service.now.streams.items) ≡ false }
    ensures faults { (result ≢ Err ServiceFault.Device) × (result ≢ Err ServiceFault.ReadTurns) }
{
    hub_with_cursors(alloc, service, 0)
}

/// Creates a hub for the streams, without bytes, that keeps up to this number of cursors. It shows WebP files if that
/// is asked for.
pub(crate) fn hub_with_cursors(
    alloc: Global,
    service: &ServeArgs<'_>,
    cursors: u32,
) -> Result<Hub, ServiceFault>
    ensures hub { IfOk result (λ hub.
        IsNewHub service.now.webp service.now.streams.items service.now.cache cursors hub) }
    ensures names { result ≡ Err ServiceFault.Names → are_names (names_of service.now.streams.items) ≡ false }
    ensures faults { (result ≢ Err ServiceFault.Device) × (result ≢ Err ServiceFault.ReadTurns) }
{
    let usual = Limits::usual();
    let Some(limits) = Limits::new(
        usual.pixels,
        usual.packet_bytes,
        usual.packets,
        service.cache,
    ) else {
        unreachable!();
    };
    let Ok(names) = stream_names(alloc, &service.streams) else {
        return Err(ServiceFault::Memory);
    };
    match hub_of(alloc, names, limits, cursors, service.webp) {
        Ok(hub) => Ok(hub),
        Err(NewFault::Names) => Err(ServiceFault::Names),
        Err(NewFault::Memory) => Err(ServiceFault::Memory),
    }
}

// Creates a hub, which shows WebP files or not.
fn hub_of(
    alloc: Global,
    names: Vec<ByteList>,
    limits: Limits,
    cursors: u32,
    webp: bool,
) -> Result<Hub, NewFault>
    ensures names { (result ≡ Err NewFault.Names) ↔ (are_names names.items ≡ false) }
    ensures hub { IfOk result (λ h. h ≡ record {
      state = new_hub_state webp names.items limits;
      cache = empty limits.cache;
      cursors = no_cursors cursors (stream_limits limits);
      work = 0;
    }) }
{
    if webp {
        Hub::with_stills(alloc, names, limits, cursors)
    } else {
        Hub::with_cursors(alloc, names, limits, cursors)
    }
}

pub(crate) fn stream_names(
    alloc: Global,
    streams: &[NamedFile<'_>],
) -> Result<Vec<ByteList>, AllocError>
    ensures { IfOk result (λ names. names.items ≡ names_of streams.now) }
{
    let mut names = Vec::new(alloc);
    for stream in streams {
        names.push(byte_list(alloc, stream.name.as_bytes())?)?;
    }
    Ok(names)
}

fn byte_list(alloc: Global, bytes: &[u8]) -> Result<ByteList, AllocError>
    ensures { IfOk result (λ l. l ≡ bytes.now) }
{
    Ok(ByteList::from_vec(bytes.to_vec(alloc)?))
}

/// Feeds each stream its file, one after another, and marks its end.
pub fn feed_all<H: Files + AllocGlobal, R: Read>(
    rt: &H,
    hub: &mut Hub,
    streams: &[NamedFile<'_>],
    input: &mut Counted<R>,
) -> Result<(), ServiceFault>
    ensures fed { IfOk result (λ _. AreFilesFed streams.now hub.old.state hub.new.state
        (counted_remaining R.remaining input.old) (counted_remaining R.remaining input.new)) }
    ensures names { result ≢ Err ServiceFault.Names }
{
    let meter = Meter::new(rt);
    feed_each(&mut Outside::new(rt, &meter), hub, streams, input)
}

// Feeds each stream its file, and marks its end. Remembers which stream's file is refused.
fn feed_each<H: Files + AllocGlobal, R: Read>(
    outside: &mut Outside<'_, H>,
    hub: &mut Hub,
    streams: &[NamedFile<'_>],
    input: &mut Counted<R>,
) -> Result<(), ServiceFault>
    ensures fed { IfOk result (λ _. AreFilesFed streams.now hub.old.state hub.new.state
        (counted_remaining R.remaining input.old) (counted_remaining R.remaining input.new)) }
    ensures names { result ≢ Err ServiceFault.Names }
{
    for stream in streams {
        feed_stream(outside, hub, stream, input)?;
        outside.has_fed();
    }
    Ok(())
}

// Feeds the file of a stream, and marks its end.
pub(crate) fn feed_stream<H: Files + AllocGlobal, R: Read>(
    outside: &mut Outside<'_, H>,
    hub: &mut Hub,
    stream: &NamedFile<'_>,
    input: &mut Counted<R>,
) -> Result<(), ServiceFault>
    ensures fed { IfOk result (λ _. IsFileFed stream.now hub.old.state hub.new.state
        (counted_remaining R.remaining input.old) (counted_remaining R.remaining input.new)) }
    ensures names { result ≢ Err ServiceFault.Names }
{
    if stream.file == "-" {
        return feed(outside.alloc(), hub, stream.name, input);
    }
    match outside.open(stream.file) {
        Ok(mut file) => {
            let reader = &mut Counted::new(&mut file);
            let fed = feed(outside.alloc(), hub, stream.name, reader);
            outside.has_read(file);
            fed
        }
        Err(error) => Err(ServiceFault::from(error)),
    }
}

fn feed<R: Read>(
    alloc: Global,
    hub: &mut Hub,
    name: &str,
    reader: &mut Counted<R>,
) -> Result<(), ServiceFault>
    ensures fed { IfOk result (λ _. (file : List ℕ)
        × Consumes (counted_remaining R.remaining reader.old) (counted_remaining R.remaining reader.new) file
        × IsFed name.now hub.old.state hub.new.state file (counted_remaining R.remaining reader.new)) }
    ensures names { result ≢ Err ServiceFault.Names }
{
    for _turn in 0..u32::MAX {
        if !feed_piece(alloc, hub, name, reader)? {
            return Ok(());
        }
    }
    Err(ServiceFault::ReadTurns)
}

// Reads once, and feeds the bytes. At the end, or after the file's fault, it marks the stream's end and returns false.
fn feed_piece<R: Read>(
    alloc: Global,
    hub: &mut Hub,
    name: &str,
    reader: &mut Counted<R>,
) -> Result<bool, ServiceFault>
    ensures fed { (piece : List ℕ)
        × Consumes (counted_remaining R.remaining reader.old) (counted_remaining R.remaining reader.new) piece
        × FeedsPiece name.now hub.old.state hub.new.state result piece (counted_remaining R.remaining reader.new) }
    ensures names { result ≢ Err ServiceFault.Names }
{
    let mut buffer = [0; 4096];
    let count = reader.read(&mut buffer)?;
    if count == 0 {
        mark_end(alloc, hub, name)?;
        return Ok(false);
    }
    feed_bytes(alloc, hub, name, &buffer[..count])
}

// Marks the end of a stream.
fn mark_end(alloc: Global, hub: &mut Hub, name: &str) -> Result<(), AllocError>
    ensures { IfOk result (λ _. (told : Outcome) × IsStep hub.old.state (Event.End name.now) told hub.new.state) }
{
    let end = byte_list(alloc, name.as_bytes())?;
    let _ = step(hub, Event::End(end));
    Ok(())
}

// Feeds bytes to a stream. If the stream refuses them, it marks the stream's end and returns false.
fn feed_bytes(alloc: Global, hub: &mut Hub, name: &str, bytes: &[u8]) -> Result<bool, ServiceFault>
    ensures fed { (left : Option (List ℕ)) → FeedsPiece name.now hub.old.state hub.new.state result bytes.now left }
    ensures names { result ≢ Err ServiceFault.Names }
{
    let stream = byte_list(alloc, name.as_bytes())?;
    let piece = byte_list(alloc, bytes)?;
    let end = byte_list(alloc, name.as_bytes())?;
    feed_or_end(hub, Event::Feed(stream, piece), end)
}

// Hands a piece of a stream to the hub. If it is refused, but not for want of memory, it marks the end of the stream
// with this name, and returns false.
fn feed_or_end(hub: &mut Hub, feed: Event, name: ByteList) -> Result<bool, ServiceFault>
    ensures fed { (piece : List ℕ) (left : Option (List ℕ)) → feed ≡ Event.Feed name piece
        → FeedsPiece name hub.old.state hub.new.state result piece left }
    ensures names { result ≢ Err ServiceFault.Names }
{
    let Err(fault) = step(hub, feed) else {
        return Ok(true);
    };
    if is_memory(fault) {
        return Err(ServiceFault::Memory);
    }
    let _ = step(hub, Event::End(name));
    Ok(false)
}

// Hands an event to the hub, and drops the reply.
fn step(hub: &mut Hub, event: Event) -> Result<(), HubFault>
    ensures ok { IfOk result (λ _. (reply : Reply) × IsStep hub.old.state event (Ok reply) hub.new.state) }
    ensures err { IfErr result (λ fault. IsStep hub.old.state event (Err fault) hub.new.state) }
    ensures either { (told : Outcome) × IsStep hub.old.state event told hub.new.state }
{
    match hub.step(&event) {
        Ok(_) => Ok(()),
        Err(fault) => Err(fault),
    }
}

fn is_memory(fault: HubFault) -> bool
    ensures { result ≡ hub_is_memory (Err fault) }
{
    matches!(fault, HubFault::Memory)
}

/// Serves the given number of connections, one after another. Returns whether each was served to its end; the faults of
/// the others are printed on `errors`.
pub fn serve_each<E: Write>(
    hub: &mut Hub,
    listener: &TcpListener,
    connections: u32,
    errors: &mut Counted<E>,
) -> bool
    ensures served { IsServing connections hub.old.state result }
    ensures stays { hub.new.state ≡ hub.old.state }
{
    let mut well = true;
    for number in 0..connections {
        if let Err(fault) = serve_next(hub, listener, number) {
            let _ = writeln!(errors, "vp8: {fault}");
            let _ = hint_connection(number, fault, errors);
            well = false;
        }
    }
    well
}

// Accepts a connection, and serves it under this number.
fn serve_next(hub: &mut Hub, listener: &TcpListener, number: u32) -> Result<(), ServeFault>
    ensures served { IsServed number hub.old.state result }
    ensures stays { hub.new.state ≡ hub.old.state }
{
    let Ok((stream, _)) = listener.accept() else {
        return Err(ServeFault::Device);
    };
    let _ = stream.set_nodelay(true);
    let mut reader = Counted::new(&stream);
    let mut writer = Counted::new(&stream);
    let served = serve_one(hub, number, &mut reader, &mut writer);
    part(&stream);
    served
}

// Shuts down writing, and reads for a while. Dropping a socket with unread bytes would make the peer lose a response
// that it hasn't read yet.
fn part(stream: &TcpStream) {
    let _ = stream.shutdown(Shutdown::Write);
    if stream
        .set_read_timeout(Some(Duration::from_secs(1)))
        .is_err()
    {
        return;
    }
    let mut reader = stream;
    let mut buffer = [0; 4096];
    for _ in 0..256 {
        match reader.read(&mut buffer) {
            Ok(0) | Err(_) => return,
            Ok(_) => {}
        }
    }
}
