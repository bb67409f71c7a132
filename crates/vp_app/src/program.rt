//! The program: runs the command line over any standard streams.

ghost use Rattle.std.specs.Prelude.{◌≡◌, ◌≢◌, ◌≤◌, ◌⊎◌, [], false, true};
ghost use Rattle.clap.specs.Values.{kind_of};
ghost use Rattle.clap.specs.Walk.{texts};
ghost use Rattle.clap.specs.declared.error.kind.ErrorKind.{ErrorKind};
ghost use Rattle.vp_commands.specs.Commands.{read_side, written_side};
ghost use Rattle.vp_app.specs.Program.{status_by_service, Does};
ghost use Rattle.vp_app.specs.Many.{status_by_many};
ghost use Rattle.vp_args.specs.Args.{parsed_args, faults_of, AreMistaken, ParsedArgs, IsForMemory, IsMistake, IsInvalidValue};
ghost use Rattle.vp_args.specs.Args.{IsTaskFor};

use crate::hints::hint_serve;
use crate::many::{ManyFault, print_fault, serve_many};
use crate::service::{ServiceFault, serve};
use clap::Error;
use clap::error::ErrorKind;
use std::alloc::{AllocError, Global};
use std::io::{Read, Write};
use std::net::{Net, TcpListener, TcpStream};
use std::rt::{Env, Files};
use std::time::Clock;
use std::{env, io};
use vp_args::{Refusal, ServeArgs, ServeManyArgs, Task, read_args};
use vp_base::Counted;
use vp_commands::{Outside, run_check, run_decode, run_encode, run_info, run_picture, run_range};
use vp_hints::Meter;
use vp_lines::report_fault;
use vp_stream::DecodeFault;

/// Runs the command that the arguments ask for; the first argument is the program's name. Returns the exit status: 0, 1
/// after a fault, or 2 after a usage error.
///
/// `vp8 decode IN OUT` writes the pictures of an IVF file as I420, `vp8 decode --y4m IN OUT` as YUV4MPEG2. Faults are
/// printed on `errors`, one per line: `vp8: NAME` if it ended the work, else `vp8: packet N: NAME`. Usage errors are
/// printed there too; nothing is read or written then.
///
/// With `--frame N` or `--frames A-B` only the pictures of packet N, or of packets A to B, are written. If one is
/// missing, `vp8: no packet N: IN has COUNT packets` is printed for the first such packet, and the status is 1. With
/// `--md5` OUT is not written and may be left out, and the MD5 sum of what it would hold is printed, as md5sum does;
/// with `--md5-each` the sum of each picture before it.
///
/// `vp8 encode IN OUT` writes the pictures of a YUV4MPEG2 file as VP8 in an IVF file, once all are encoded, or with
/// `--live` each as soon as it is read. It prints `frames N error E` on `errors`: the number of frames, and the sum of
/// their squared errors.
///
/// `vp8 info IN...` prints the contents of IVF files, including the packets' faults; with `--long` also which packets
/// are read past their end, with `--json` as a JSON document for each file.
///
/// With `--progress` these and `encode` print on standard error how far they are, at most twice a second. They and
/// `picture` read packets and pictures up to the limits of `--max-packets` and `--max-pixels`.
///
/// `vp8 check IN...` decodes IVF files, one after another, and prints what is found in each: the numbers of its
/// packets, and its fault. With `--verbose` a line comes before these for each packet that has a fault or is read past
/// its end. The status is 1 if anything is wrong. A file that can't be opened does not stop the others.
///
/// `vp8 picture IN OUT` writes the first shown picture of an IVF or WebP file, or with `--packet N` that of packet N,
/// as WebP, YUV4MPEG2, I420 or PPM by OUT's name, with `--scale K` made smaller. OUT is created once the picture is
/// made.
///
/// `vp8 serve --listen ADDR --connections N NAME=FILE...` serves the pictures of files over HTTP, and ends after N
/// connections. The fault of a connection is printed, and the next one is served.
///
/// `vp8 serve --listen ADDR --max-connections K NAME=FILE...` serves up to K connections at once, without end.
///
/// The file name `-` is `input` or `output`.
pub fn command<
    H: Files + AllocGlobal + Clock + Eprint + Net<Stream = TcpStream, Listener = TcpListener>,
    R: Read,
    W: Write,
    E: Write,
>(
    rt: &H,
    words: &[&str],
    input: &mut Counted<R>,
    output: &mut Counted<W>,
    errors: &mut Counted<E>,
) -> u8
    ensures status { result ≤ 2 }
    ensures usage { result ≡ 2 → (input.new ≡ input.old) × (output.new ≡ output.old) }

    // If clap accepts the arguments, the command is carried out.
    ensures does { faults_of (texts words.now) ≡ [] → Does (parsed_args (texts words.now)) result
        (read_side R.remaining input.old) (read_side R.remaining input.new)
        (written_side W.contents output.old) (written_side W.contents output.new) }

    // If clap refuses the arguments, and they don't ask for help or the version, the status is 2, or 1 if memory runs
    // out.
    ensures mistaken { AreMistaken (texts words.now) → (result ≡ 2)
        ⊎ ((result ≡ 1) × (input.new ≡ input.old) × (output.new ≡ output.old)) }
{
    let meter = Meter::new(rt);
    command_metered(rt, &meter, words, input, output, errors)
}

// Runs a command, as `command` does. A meter tells how far it is.
fn command_metered<
    'a,
    H: Files + AllocGlobal + Clock + Eprint + Net<Stream = TcpStream, Listener = TcpListener>,
    R: Read,
    W: Write,
    E: Write,
>(
    rt: &'a H,
    meter: &'a Meter<'a, H>,
    words: &[&str],
    input: &mut Counted<R>,
    output: &mut Counted<W>,
    errors: &mut Counted<E>,
) -> u8
    ensures status { result ≤ 2 }
    ensures usage { result ≡ 2 → (input.new ≡ input.old) × (output.new ≡ output.old) }
    ensures does { faults_of (texts words.now) ≡ [] → Does (parsed_args (texts words.now)) result
        (read_side R.remaining input.old) (read_side R.remaining input.new)
        (written_side W.contents output.old) (written_side W.contents output.new) }
    ensures mistaken { AreMistaken (texts words.now) → (result ≡ 2)
        ⊎ ((result ≡ 1) × (input.new ≡ input.old) × (output.new ≡ output.old)) }
{
    match read_args(rt.alloc(), words) {
        Ok(task) => run_task(&mut Outside::new(rt, meter), &task, input, output, errors),
        Err(refusal) => reject(&refusal, output, errors),
    }
}

// Runs a task, and returns the exit status.
fn run_task<
    H: Files + AllocGlobal + Clock + Eprint + Net<Stream = TcpStream, Listener = TcpListener>,
    R: Read,
    W: Write,
    E: Write,
>(
    outside: &mut Outside<'_, H>,
    task: &Task<'_>,
    input: &mut Counted<R>,
    output: &mut Counted<W>,
    errors: &mut Counted<E>,
) -> u8
    ensures status { result ≤ 2 }
    ensures usage { result ≡ 2 → (input.new ≡ input.old) × (output.new ≡ output.old) }
    ensures nothing { task.now ≡ Task.Nothing → result ≡ 2 }
    ensures does { (asked : ParsedArgs) → IsTaskFor asked task.now → Does asked result
        (read_side R.remaining input.old) (read_side R.remaining input.new)
        (written_side W.contents output.old) (written_side W.contents output.new) }
{
    match task {
        Task::Decode(decoding) => run_decode(outside, decoding, input, output, errors),
        Task::DecodeRange(wanted) => run_range(outside, wanted, input, output, errors),
        Task::Encode(encoding) => run_encode(outside, encoding, input, output, errors),
        Task::Info(wanted) => run_info(outside, wanted, input, output, errors),
        Task::Serve(service) => {
            let done = serve(outside, service, input, output, errors);
            report_serve(outside, done, service, errors)
        }
        Task::ServeMany(many) => {
            let done = serve_many(outside.system(), many, input, output, errors);
            report_serve_many(done, many, errors)
        }
        Task::Check(wanted) => run_check(outside, wanted, input, output, errors),
        Task::Picture(wanted) => run_picture(outside, wanted, input, errors),
        Task::Nothing => 2,
    }
}

// Reports why no task is run, and returns the exit status.
fn reject<W: Write, E: Write>(
    refusal: &Refusal,
    output: &mut Counted<W>,
    errors: &mut Counted<E>,
) -> u8
    ensures status { result ≤ 2 }
    ensures usage { result ≡ 2 → output.new ≡ output.old }
    ensures memory { IsForMemory refusal.now → (result ≡ 1) × (output.new ≡ output.old) }
    ensures mistake { IsMistake refusal.now → (result ≡ 2) ⊎ ((result ≡ 1) × (output.new ≡ output.old)) }
    ensures value { IsInvalidValue refusal.now → (result ≡ 2) × (output.new ≡ output.old) }
{
    match refusal {
        Refusal::Value(text) => report_usage_error(text, errors),
        Refusal::ClapError(error) => report_args_error(error, output, errors),
    }
}

// Prints the help, or the usage error.
fn report_args_error<W: Write, E: Write>(
    error: &Error,
    output: &mut Counted<W>,
    errors: &mut Counted<E>,
) -> u8
    ensures status { result ≤ 2 }
    ensures usage { result ≡ 2 → output.new ≡ output.old }
    ensures memory { kind_of error.now ≡ ErrorKind.OutOfMemory → (result ≡ 1) × (output.new ≡ output.old) }
    ensures mistake { kind_of error.now ≢ ErrorKind.DisplayHelp → kind_of error.now ≢ ErrorKind.DisplayVersion
        → (result ≡ 2) ⊎ ((result ≡ 1) × (output.new ≡ output.old)) }
    ensures words { kind_of error.now ≢ ErrorKind.OutOfMemory → kind_of error.now ≢ ErrorKind.DisplayHelp
        → kind_of error.now ≢ ErrorKind.DisplayVersion → result ≡ 2 }
{
    if error.kind() == ErrorKind::OutOfMemory {
        return report_fault(DecodeFault::Memory, errors);
    }
    if error.use_stderr() {
        let _ = write!(errors, "{error}");
        return 2;
    }
    match write!(output, "{error}") {
        Ok(()) => 0,
        Err(_) => report_fault(DecodeFault::Device, errors),
    }
}

// Prints an error about a value.
fn report_usage_error<E: Write>(text: &str, errors: &mut Counted<E>) -> u8
    ensures { result ≡ 2 }
{
    let _ = writeln!(errors, "error: {text}");
    2
}

// Prints the fault that prevented serving, and returns the exit status.
fn report_serve<H, E: Write>(
    outside: &Outside<'_, H>,
    done: Result<bool, ServiceFault>,
    service: &ServeArgs<'_>,
    errors: &mut Counted<E>,
) -> u8
    ensures status { result ≤ 1 }
    ensures by { result ≡ status_by_service done }
{
    match done {
        Ok(true) => 0,
        Ok(false) => 1,
        Err(fault) => {
            let status = report_fault(fault, errors);
            let _ = hint_serve(outside, fault, service, errors);
            status
        }
    }
}

// Prints the fault that prevented serving many connections, and returns the exit status.
fn report_serve_many<E: Write>(
    done: Result<bool, ManyFault>,
    many: &ServeManyArgs<'_>,
    errors: &mut Counted<E>,
) -> u8
    ensures status { result ≤ 1 }
    ensures by { result ≡ status_by_many done }
{
    match done {
        Ok(true) => 0,
        Ok(false) => 1,
        Err(fault) => {
            print_fault(&fault, many, errors);
            1
        }
    }
}

/// Runs the program with its own command line, as `command` does. An argument that isn't UTF-8 is a usage error. If
/// progress is asked for, the meter tells it; what it knows of standard input its reader has to tell it.
pub fn command_line<
    'a,
    H: Files + AllocGlobal + Clock + Env + Eprint + Net<Stream = TcpStream, Listener = TcpListener>,
    R: Read,
    W: Write,
    E: Write,
>(
    rt: &'a H,
    meter: &'a Meter<'a, H>,
    input: &mut Counted<R>,
    output: &mut Counted<W>,
    errors: &mut Counted<E>,
) -> u8
    ensures status { result ≤ 2 }
    ensures usage { result ≡ 2 → (input.new ≡ input.old) × (output.new ≡ output.old) }
{
    match owned_words(rt) {
        Ok(words) => owned_command(rt, meter, &words, input, output, errors),
        Err(WordsFault::Memory) => report_fault(DecodeFault::Memory, errors),
        Err(WordsFault::Text) => report_usage_error("a word isn't UTF-8", errors),
    }
}

// The reasons for which the program's arguments can't be read: out of memory, or one isn't UTF-8.
#[derive(Drop)]
enum WordsFault {
    Memory,
    Text,
}

// Returns the program's arguments.
fn owned_words<H: AllocGlobal + Env>(rt: &H) -> Result<Vec<String>, WordsFault> {
    let args = match env::args(rt) {
        Ok(args) => args,
        Err(error) if error.kind() == io::ErrorKind::OutOfMemory => {
            return Err(WordsFault::Memory);
        }
        Err(_) => return Err(WordsFault::Text),
    };
    match args.collect(rt.alloc()) {
        Ok(words) => Ok(words),
        Err(_) => Err(WordsFault::Memory),
    }
}

// Runs the command that these arguments ask for.
fn owned_command<
    'a,
    H: Files + AllocGlobal + Clock + Eprint + Net<Stream = TcpStream, Listener = TcpListener>,
    R: Read,
    W: Write,
    E: Write,
>(
    rt: &'a H,
    meter: &'a Meter<'a, H>,
    words: &[String],
    input: &mut Counted<R>,
    output: &mut Counted<W>,
    errors: &mut Counted<E>,
) -> u8
    ensures status { result ≤ 2 }
    ensures usage { result ≡ 2 → (input.new ≡ input.old) × (output.new ≡ output.old) }
{
    match lent_words(rt.alloc(), words) {
        Ok(words) => command_metered(rt, meter, &words, input, output, errors),
        Err(_) => report_fault(DecodeFault::Memory, errors),
    }
}

// Lends each of the words.
fn lent_words(alloc: Global, words: &[String]) -> Result<Vec<&str>, AllocError> {
    words.iter().map(|word| word.as_str()).collect(alloc)
}
