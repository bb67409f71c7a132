//! The command `vp8 serve --max-connections`: feeds files into a hub, and then serves many connections at once.

ghost use Rattle.std.specs.Prelude.{◌≡◌, ◌≢◌, IfOk, None, false, true};
ghost use Rattle.vp_base.specs.Counted.{counted_remaining};
ghost use Rattle.vp_app.specs.declared.many.ManyFault.{ManyFault};
ghost use Rattle.vp_app.specs.declared.service.ServiceFault.{ServiceFault};
ghost use Rattle.vp_app.specs.Many.{IsFedBefore, ServesMany, WorksLoop, followed_names, options_of};
ghost use Rattle.vp_app.specs.Serving.{AreFilesFed, IsFileFed};

use crate::hints::{hint_address, hint_file, hint_names, hint_odd_file, hint_stream};
use crate::service::{ServiceFault, feed_stream, hub_with_cursors, print_address, stream_names};
use std::alloc::{AllocError, Global};
use std::io::{Read, Write};
use std::net::{Net, TcpListener, TcpStream};
use std::rt::Files;
use std::time::Clock;
use std::{fs, io};
use vp_args::{NamedFile, ServeArgs, ServeManyArgs};
use vp_base::{ByteList, Counted};
use vp_commands::{Outside, hint_memory, is_regular, oddity_at, oddity_of};
use vp_hints::{Cause, Meter};
use vp_hub::Hub;
use vp_mio::{FollowedFile, MioTransport};
use vp_serve::{ServeOptions, ServerLoop, catch_up, serve};

/// The most milliseconds between two looks at the clock.
const LONGEST_WAIT: u32 = 250;

/// The reasons for which connections are not served.
#[derive(Drop)]
pub enum ManyFault {
    /// The names are not valid names for streams.
    Names,
    /// Out of memory.
    Memory,
    /// The file of the stream at an index can't be opened or read.
    Open(usize, io::Error),
    /// The file of the stream at an index can't be fed.
    Feed(usize, ServiceFault),
    /// The program can't listen on the address.
    Listen(io::Error),
    /// The address can't be printed.
    Print(io::Error),
    /// There is no clock, or no means to wait for sockets.
    System(io::Error),
}

impl From<ServiceFault> for ManyFault {
    ghost from_gives = { λ fault many. (fault ≡ ServiceFault.Names → many ≡ ManyFault.Names)
        × (fault ≢ ServiceFault.Names → many ≡ ManyFault.Memory) };

    fn from(fault: ServiceFault) -> ManyFault {
        match fault {
            ServiceFault::Names => ManyFault::Names,
            _ => ManyFault::Memory,
        }
    }
}

impl From<AllocError> for ManyFault {
    ghost from_gives = { λ _ fault. fault ≡ ManyFault.Memory };

    fn from(_: AllocError) -> ManyFault {
        ManyFault::Memory
    }
}

/// Feeds the files, unless they are followed, and serves connections until the given number was served, which by
/// default is no end. Returns whether no followed file had a fault; such faults are printed on `errors`.
pub(crate) fn serve_many<
    H: Files + AllocGlobal + Clock + Net<Stream = TcpStream, Listener = TcpListener>,
    R: Read,
    W: Write,
    E: Write,
>(
    rt: &H,
    many: &ServeManyArgs<'_>,
    input: &mut Counted<R>,
    output: &mut Counted<W>,
    errors: &mut Counted<E>,
) -> Result<bool, ManyFault>
    ensures served { ServesMany many.now result (counted_remaining R.remaining input.old)
        (counted_remaining R.remaining input.new) }

    // Only the address is printed, if that is asked for.
    ensures quiet { many.now.service.show_address ≡ false → output.new ≡ output.old }
{
    let mut hub = hub_with_cursors(rt.alloc(), &many.service, many.cursors)?;
    let files = feed_or_follow(rt, &mut hub, many, input, errors)?;
    let mut server = ServerLoop::new(rt.alloc(), hub, options_of(many));
    run_loop(rt, &mut server, files, many, output, errors)
}

// Feeds each stream its file to its end, or opens the files that are followed.
fn feed_or_follow<'a, H: Files + AllocGlobal, R: Read, E: Write>(
    rt: &H,
    hub: &mut Hub,
    many: &'a ServeManyArgs<'_>,
    input: &mut Counted<R>,
    errors: &mut Counted<E>,
) -> Result<Vec<FollowedFile<'a, H::File>>, ManyFault>
    ensures { IfOk result (λ _. IsFedBefore many.now hub.old.state hub.new.state
        (counted_remaining R.remaining input.old) (counted_remaining R.remaining input.new)) }
{
    if many.follow {
        return follow_all(rt, &many.service.streams, errors);
    }
    feed_each(rt, hub, &many.service.streams, input, errors)?;
    Ok(Vec::new(rt.alloc()))
}

// Opens the file of each stream.
fn follow_all<'a, H: Files + AllocGlobal, E: Write>(
    rt: &H,
    streams: &'a [NamedFile<'_>],
    errors: &mut Counted<E>,
) -> Result<Vec<FollowedFile<'a, H::File>>, ManyFault> {
    let mut files = Vec::new(rt.alloc());
    for (place, stream) in streams.iter().enumerate() {
        follow(rt, stream, place, &mut files, errors)?;
    }
    Ok(files)
}

// Opens the file of the stream at an index.
fn follow<'a, H: Files, E: Write>(
    rt: &H,
    stream: &'a NamedFile<'_>,
    place: usize,
    files: &mut Vec<FollowedFile<'a, H::File>>,
    errors: &mut Counted<E>,
) -> Result<(), ManyFault> {
    match fs::open(rt, stream.file) {
        Ok(file) => {
            hint_start(rt, stream, &file, errors);
            match files.push(FollowedFile::new(stream.name, stream.file, file)) {
                Ok(()) => Ok(()),
                Err(_) => Err(ManyFault::Memory),
            }
        }
        Err(error) => Err(ManyFault::Open(place, error)),
    }
}

// Prints that the file of a stream, which is followed from its start on, is not an IVF file of VP8. Of a pipe's bytes
// none can be read before.
fn hint_start<H: Files, E: Write>(
    rt: &H,
    stream: &NamedFile<'_>,
    file: &H::File,
    errors: &mut Counted<E>,
) {
    if is_regular(file) {
        let _ = hint_odd_file(oddity_at(rt, stream.file), stream, errors);
    }
}

// Feeds each stream its file, one after another, and marks its end.
fn feed_each<H: Files + AllocGlobal, R: Read, E: Write>(
    rt: &H,
    hub: &mut Hub,
    streams: &[NamedFile<'_>],
    input: &mut Counted<R>,
    errors: &mut Counted<E>,
) -> Result<(), ManyFault>
    ensures { IfOk result (λ _. AreFilesFed streams.now hub.old.state hub.new.state
        (counted_remaining R.remaining input.old) (counted_remaining R.remaining input.new)) }
{
    let mut place: usize = 0;
    for stream in streams {
        feed_next(rt, hub, stream, place, input, errors)?;
        place = place.saturating_add(1);
    }
    Ok(())
}

// Feeds the stream at an index its file, and marks its end.
fn feed_next<H: Files + AllocGlobal, R: Read, E: Write>(
    rt: &H,
    hub: &mut Hub,
    stream: &NamedFile<'_>,
    place: usize,
    input: &mut Counted<R>,
    errors: &mut Counted<E>,
) -> Result<(), ManyFault>
    ensures { IfOk result (λ _. IsFileFed stream.now hub.old.state hub.new.state
        (counted_remaining R.remaining input.old) (counted_remaining R.remaining input.new)) }
{
    let meter = Meter::new(rt);
    let mut outside = Outside::new(rt, &meter);
    match feed_stream(&mut outside, hub, stream, input) {
        Ok(()) => {
            let _ = hint_odd_file(oddity_of(&outside.input), stream, errors);
            Ok(())
        }
        Err(fault) => Err(unfed(outside.refused, place, fault)),
    }
}

// The fault of the stream at an index whose file is not fed.
fn unfed(refused: Option<io::Error>, place: usize, fault: ServiceFault) -> ManyFault {
    match (refused, fault) {
        (Some(error), ServiceFault::Device) => ManyFault::Open(place, error),
        _ => ManyFault::Feed(place, fault),
    }
}

// Runs a server's loop, over sockets and the followed files.
fn run_loop<
    'a,
    H: Files + AllocGlobal + Clock + Net<Stream = TcpStream, Listener = TcpListener>,
    W: Write,
    E: Write,
>(
    rt: &'a H,
    server: &mut ServerLoop,
    files: Vec<FollowedFile<'a, H::File>>,
    many: &ServeManyArgs<'_>,
    output: &mut Counted<W>,
    errors: &'a mut Counted<E>,
) -> Result<bool, ManyFault>
    ensures works { IfOk result (WorksLoop (followed_names many.now) server.old) }
    ensures quiet { many.now.service.show_address ≡ false → output.new ≡ output.old }
{
    let Ok(names) = followed_names(rt.alloc(), many) else {
        return Err(ManyFault::Memory);
    };
    let mut transport = new_transport(rt, files, many, errors)?;
    work(rt, server, &mut transport, &names, many, output)
}

// Returns the names of the streams whose files are followed.
fn followed_names(alloc: Global, many: &ServeManyArgs<'_>) -> Result<Vec<ByteList>, AllocError>
    ensures { IfOk result (λ names. names.items ≡ followed_names many.now) }
{
    if many.follow {
        stream_names(alloc, &many.service.streams)
    } else {
        Ok(Vec::new(alloc))
    }
}

// Creates a transport over these files, which prints a line for each request if that is asked for.
fn new_transport<'a, H: Files + AllocGlobal + Clock + Net, E: Write>(
    rt: &'a H,
    files: Vec<FollowedFile<'a, H::File>>,
    many: &ServeManyArgs<'_>,
    errors: &'a mut Counted<E>,
) -> Result<MioTransport<'a, H, H::File, Counted<E>>, ManyFault> {
    let mut transport = match MioTransport::new(
        rt,
        rt,
        rt.alloc(),
        longest_wait(many),
        files,
        errors,
    ) {
        Ok(transport) => transport,
        Err(error) => return Err(ManyFault::System(error)),
    };
    if many.access_log {
        transport.log_accesses();
    }
    Ok(transport)
}

// Reads the followed files to their ends for now, listens, and serves.
fn work<
    H: Files + AllocGlobal + Clock + Net<Stream = TcpStream, Listener = TcpListener>,
    W: Write,
    E: Write,
>(
    rt: &H,
    server: &mut ServerLoop,
    transport: &mut MioTransport<'_, H, H::File, Counted<E>>,
    names: &[ByteList],
    many: &ServeManyArgs<'_>,
    output: &mut Counted<W>,
) -> Result<bool, ManyFault>
    ensures works { IfOk result (WorksLoop names.now server.old) }
    ensures quiet { many.now.service.show_address ≡ false → output.new ≡ output.old }
{
    catch_up(rt.alloc(), server, transport, names);
    let listener = listen(rt, &many.service, output)?;
    if let Err(error) = transport.listen(listener) {
        return Err(ManyFault::System(error));
    }
    let over = serve(rt.alloc(), server, transport, names);
    Ok(is_well(over, transport.has_stopped_file()))
}

// Whether all connections were served, and no followed file had a fault.
fn is_well(over: bool, stopped: bool) -> bool
    ensures { result ≡ true → over ≡ true }
{
    over && !stopped
}

fn options_of(many: &ServeManyArgs<'_>) -> ServeOptions
    ensures { result ≡ options_of many.now }
{
    ServeOptions {
        max_connections: many.max_connections as usize,
        total_connections: many.service.connections,
        idle_timeout: u64::from(many.idle_timeout) * 1000,
        poll_interval: u64::from(many.poll_interval),
    }
}

// The most milliseconds that are waited for sockets: a quarter of the interval at which files are polled.
fn longest_wait(many: &ServeManyArgs<'_>) -> u64 {
    if many.follow {
        u64::from((many.poll_interval / 4).max(1).min(LONGEST_WAIT))
    } else {
        u64::from(LONGEST_WAIT)
    }
}

// Listens on the address, and prints it if that is asked for.
fn listen<H: Net<Stream = TcpStream, Listener = TcpListener>, W: Write>(
    rt: &H,
    service: &ServeArgs<'_>,
    output: &mut Counted<W>,
) -> Result<TcpListener, ManyFault>
    ensures quiet { service.now.show_address ≡ false → output.new ≡ output.old }
{
    let listener = match TcpListener::bind(rt, service.listen) {
        Ok(listener) => listener,
        Err(error) => return Err(ManyFault::Listen(error)),
    };
    if service.show_address {
        if let Err(error) = print_address(&listener, output) {
            return Err(ManyFault::Print(error));
        }
    }
    Ok(listener)
}

/// Prints the fault, and under it what was wrong, where, and what to do.
pub(crate) fn print_fault<E: Write>(
    fault: &ManyFault,
    many: &ServeManyArgs<'_>,
    errors: &mut Counted<E>,
) {
    let name = match fault {
        ManyFault::Names => "Names",
        ManyFault::Memory => "Memory",
        ManyFault::Feed(_, ServiceFault::Memory) => "Memory",
        ManyFault::Feed(_, ServiceFault::ReadTurns) => "ReadTurns",
        _ => "Device",
    };
    let _ = writeln!(errors, "vp8: {name}");
    let _ = hint_fault(fault, many, errors);
}

// Prints what was wrong, where, and what to do. What standard output met is reported elsewhere.
fn hint_fault<E: Write>(
    fault: &ManyFault,
    many: &ServeManyArgs<'_>,
    errors: &mut Counted<E>,
) -> io::Result<()> {
    match fault {
        ManyFault::Names => hint_names(errors),
        ManyFault::Memory => hint_memory(errors),
        ManyFault::Open(place, error) => hint_stream(&stream_at(many, *place), *error, errors),
        ManyFault::Feed(place, fault) => hint_unfed(&stream_at(many, *place), *fault, errors),
        ManyFault::Listen(error) => hint_address(many.service.listen, *error, errors),
        ManyFault::Print(_) => Ok(()),
        ManyFault::System(error) => hint_system(*error, errors),
    }
}

// Prints why sockets can't be waited for.
fn hint_system<E: Write>(error: io::Error, errors: &mut Counted<E>) -> io::Result<()> {
    let cause = Cause(error);
    writeln!(errors, "  sockets can't be waited for: {cause}")
}

// Prints why the file of a stream isn't fed.
fn hint_unfed<E: Write>(
    stream: &NamedFile<'_>,
    fault: ServiceFault,
    errors: &mut Counted<E>,
) -> io::Result<()> {
    let words = match fault {
        ServiceFault::Memory => ": out of memory",
        ServiceFault::ReadTurns => " did not end within 4,294,967,295 reads",
        _ => ": it can't be read to its end",
    };
    hint_file(stream, words, errors)
}

// The stream at an index.
fn stream_at<'a>(many: &ServeManyArgs<'a>, place: usize) -> NamedFile<'a> {
    match many.service.streams.get(place) {
        Some(stream) => *stream,
        None => NamedFile { name: "", file: "" },
    }
}
