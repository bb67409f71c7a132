//! The transcript commands for the command line. `vp8 WORD.. [< NAME] [> NAME] [2> NAME]` runs the program over named
//! bytes. It prints the exit status, the number of unread input bytes, and the output and errors that aren't redirected
//! to a name; the hints under faults are left out. `hinted vp8 WORD..` does the same with the hints. `limited WORD..
//! < NAME` encodes a source with arguments of `encode`, under the limits that `limits PIXELS BYTES PACKETS CACHE` sets.
//! `plan WORD..` prints the task of `encode` or `serve` arguments, `read PATH [> NAME]` the contents of a file,
//! `show TEXT` the bytes of a text, and `sum TEXT` their MD5.

use std::alloc::{AllocError, Global};
use std::{fs, io};
use vp_app::command;
use vp_args::{EncodeOptions, NamedFile, ServeArgs, Task, read_args};
use vp_base::{Counted, Limits};
use vp_commands::settings_of;
use vp_encode::{EncodeAllFault, EncodeReport, Settings, encode_all};
use vp_scripts::{Found, Names, Script, limits, malformed};

/// The state of the transcript commands for the command line: the limits of `limited`.
#[derive(Drop)]
pub(crate) struct Commands {
    limits: Limits,
}

/// Whether the hints under faults are printed.
#[derive(Clone, Copy)]
enum Hints {
    Shown,
    LeftOut,
}

/// Splits a line at a redirection sign that is followed by a name. Returns the line before it, and the name.
fn cut<'a>(line: &'a str, sign: &str) -> (&'a str, Option<&'a str>) {
    match line.split_once(sign) {
        Some((line, name)) => (line, Some(name)),
        None => (line, None),
    }
}

/// Adds a line.
pub(crate) fn tell_line(
    line: Result<String, AllocError>,
    found: &mut Found,
) -> Result<(), AllocError> {
    found.line(line?)
}

/// Prints bytes, if there are any, or stores them under a name.
fn tell(
    word: &str,
    bytes: &[u8],
    name: Option<&str>,
    names: &mut Names,
    found: &mut Found,
) -> io::Result<()> {
    match name {
        Some(name) => names.keep(name, bytes),
        None => Ok(found.bytes_if_any(word, bytes)?),
    }
}

/// The result of a run.
#[derive(Drop)]
struct Done {
    status: u8,
    /// The number of input bytes that weren't read.
    left: usize,
    output: Vec<u8>,
    errors: Vec<u8>,
}

/// Runs the program with these arguments over an input.
fn run_over(rt: &HostRuntime, words: &[&str], input: &[u8]) -> Done {
    let mut input = Counted::new(input);
    let mut output = Counted::new(Vec::new(rt.alloc()));
    let mut errors = Counted::new(Vec::new(rt.alloc()));
    let status = command(rt, words, &mut input, &mut output, &mut errors);
    Done {
        status,
        left: input.into_inner().len(),
        output: output.into_inner(),
        errors: errors.into_inner(),
    }
}

/// Splits a line into words.
pub(crate) fn words_of<'a>(alloc: Global, line: &'a str) -> Result<Vec<&'a str>, AllocError> {
    line.split(' ').collect(alloc)
}

/// Runs the program with the arguments in a line over an input.
fn run_line(rt: &HostRuntime, line: &str, input: &[u8]) -> Result<Done, AllocError> {
    let words = words_of(rt.alloc(), line)?;
    Ok(run_over(rt, &words, input))
}

/// Appends the lines about faults without the hints under them, which begin with two spaces; usage errors as they are.
fn add_without_hints(errors: &[u8], lines: &mut Vec<u8>) -> Result<(), AllocError> {
    for line in errors.split_inclusive(|byte| *byte == b'\n') {
        if errors.starts_with(b"error") || !line.starts_with(b"  ") {
            lines.extend_from_slice(line)?;
        }
    }
    Ok(())
}

/// Returns the bytes of a name; none without a name.
fn input_of<'a>(names: &'a Names, name: Option<&str>) -> io::Result<&'a [u8]> {
    match name {
        Some(name) => names.get(name),
        None => Ok(&[]),
    }
}

/// Prints the exit status of a run, and how many input bytes were left.
fn tell_status(alloc: Global, done: &Done, found: &mut Found) -> Result<(), AllocError> {
    tell_line(format!(in alloc; "status {}", done.status), found)?;
    found.count_if_any("left", done.left as u64)
}

/// Prints the errors of a run without hints, or stores them under a name.
fn tell_unhinted(
    alloc: Global,
    errors: &[u8],
    name: Option<&str>,
    names: &mut Names,
    found: &mut Found,
) -> io::Result<()> {
    let mut lines = Vec::new(alloc);
    add_without_hints(errors, &mut lines)?;
    tell("errors", &lines, name, names, found)
}

/// Prints the result of a run, or stores its output and its errors under these names.
fn tell_done(
    alloc: Global,
    (done, hints): (&Done, Hints),
    (output, errors): (Option<&str>, Option<&str>),
    names: &mut Names,
    found: &mut Found,
) -> io::Result<()> {
    tell_status(alloc, done, found)?;
    tell("output", &done.output, output, names, found)?;
    match hints {
        Hints::Shown => tell("errors", &done.errors, errors, names, found),
        Hints::LeftOut => tell_unhinted(alloc, &done.errors, errors, names, found),
    }
}

/// Runs the program with the arguments in a line.
fn run(
    rt: &HostRuntime,
    line: &str,
    hints: Hints,
    names: &mut Names,
    found: &mut Found,
) -> io::Result<()> {
    let (line, errors) = cut(line, " 2> ");
    let (line, output) = cut(line, " > ");
    let (line, input) = cut(line, " < ");
    let done = run_line(rt, line, input_of(names, input)?)?;
    tell_done(rt.alloc(), (&done, hints), (output, errors), names, found)
}

/// Prints the settings that the options of `encode` select.
fn tell_settings(
    alloc: Global,
    settings: &EncodeOptions,
    found: &mut Found,
) -> Result<(), AllocError> {
    let (qi, level, sharpness) = (settings.qi, settings.level, settings.sharpness);
    let (key_every, golden_every) = (settings.key_every, settings.golden_every);
    let (range, partitions) = (settings.range, settings.partitions);
    let (simple, subpel) = (settings.simple, settings.subpel);
    let filter = format!(in alloc; "qi {qi} filter {level} sharpness {sharpness} simple {simple}");
    tell_line(filter, found)?;
    let every = format!(in alloc; "key-every {key_every} golden-every {golden_every}");
    tell_line(every, found)?;
    let motion = format!(in alloc; "range {range} subpel {subpel} partitions {partitions}");
    tell_line(motion, found)
}

/// Prints the name and the file of a stream.
fn tell_file(alloc: Global, stream: &NamedFile<'_>, found: &mut Found) -> Result<(), AllocError> {
    let (name, file) = (stream.name, stream.file);
    tell_line(format!(in alloc; "stream {name} file {file}"), found)
}

/// Prints the values of the arguments of `serve`.
fn tell_service(
    alloc: Global,
    service: &ServeArgs<'_>,
    found: &mut Found,
) -> Result<(), AllocError> {
    let (listen, connections) = (service.listen, service.connections);
    let (cache, show_address) = (service.cache, service.show_address);
    let listens = format!(in alloc; "listen {listen} connections {connections}");
    tell_line(listens, found)?;
    let caches = format!(in alloc; "cache {cache} show-address {show_address}");
    tell_line(caches, found)?;
    for stream in &service.streams {
        tell_file(alloc, stream, found)?;
    }
    Ok(())
}

/// Prints a task.
fn tell_task(alloc: Global, task: &Task<'_>, found: &mut Found) -> io::Result<()> {
    match task {
        Task::Encode(encoding) => Ok(tell_settings(alloc, &encoding.options, found)?),
        Task::Serve(service) => Ok(tell_service(alloc, service, found)?),
        _ => Err(malformed()),
    }
}

/// Prints the task that these arguments ask for.
fn tell_plan_of(alloc: Global, words: &[&str], found: &mut Found) -> io::Result<()> {
    match read_args(alloc, words) {
        Ok(task) => tell_task(alloc, &task, found),
        Err(_) => Err(malformed()),
    }
}

/// Prints the task that the arguments in a line ask for.
fn tell_plan(alloc: Global, line: &str, found: &mut Found) -> io::Result<()> {
    let words = words_of(alloc, line)?;
    tell_plan_of(alloc, &words, found)
}

/// Returns the settings that the arguments of `encode` select.
fn asked(alloc: Global, words: &[&str]) -> Option<Settings> {
    match read_args(alloc, words) {
        Ok(Task::Encode(encoding)) => Some(settings_of(&encoding.options)),
        _ => None,
    }
}

/// Returns the settings that the arguments of `encode` in a line select.
fn asked_in(alloc: Global, line: &str) -> Result<Option<Settings>, AllocError> {
    let words = words_of(alloc, line)?;
    Ok(asked(alloc, &words))
}

/// Prints the report or the fault, and the number of bytes written.
fn tell_encoded(
    alloc: Global,
    done: &Result<EncodeReport, EncodeAllFault>,
    bytes: u64,
    found: &mut Found,
) -> Result<(), AllocError> {
    let line = match done {
        Ok(report) => {
            let (frames, error) = (report.frames, report.error);
            format!(in alloc; "frames {frames} error {error}")
        }
        Err(fault) => format!(in alloc; "refused {fault}"),
    };
    tell_line(line, found)?;
    found.count_if_any("bytes", bytes)
}

/// Encodes a source under limits. Prints the report or the fault, and the number of bytes written.
fn encode_within(
    alloc: Global,
    limits: Limits,
    settings: Settings,
    source: &[u8],
    found: &mut Found,
) -> Result<(), AllocError> {
    let mut reader = Counted::new(source);
    let mut writer = Counted::new(Vec::new(alloc));
    let done = encode_all(alloc, &mut reader, &mut writer, settings, limits);
    tell_encoded(alloc, &done, writer.into_inner().len() as u64, found)
}

/// Encodes a source with the arguments in a line, under limits.
fn encode(
    alloc: Global,
    limits: Limits,
    line: &str,
    names: &Names,
    found: &mut Found,
) -> io::Result<()> {
    let (line, name) = line.split_once(" < ").ok_or(malformed())?;
    let settings = asked_in(alloc, line)?.ok_or(malformed())?;
    let source = names.get(name)?;
    Ok(encode_within(alloc, limits, settings, source, found)?)
}

/// Prints the contents of a file, or stores them under a name.
fn tell_contents(
    bytes: &[u8],
    name: Option<&str>,
    names: &mut Names,
    found: &mut Found,
) -> io::Result<()> {
    match name {
        Some(name) => names.keep(name, bytes),
        None => Ok(found.bytes("holds", bytes)?),
    }
}

/// Reads a file, and prints its contents or stores them under a name.
fn read(rt: &HostRuntime, line: &str, names: &mut Names, found: &mut Found) -> io::Result<()> {
    let (path, name) = cut(line, " > ");
    match fs::read(rt, path) {
        Ok(bytes) => tell_contents(&bytes, name, names, found),
        Err(_) => Ok(found.word("no file")?),
    }
}

/// Prints the bytes of a text.
fn show(text: &str, names: &Names, found: &mut Found) -> io::Result<()> {
    let bytes = names.read(text)?;
    Ok(found.bytes("bytes", &bytes)?)
}

/// Prints the MD5 of the bytes of a text.
fn sum(text: &str, names: &Names, found: &mut Found) -> io::Result<()> {
    let bytes = names.read(text)?;
    Ok(found.sum(&bytes)?)
}

/// Carries out a command that needs no limits: a line of this word and the rest.
fn carry_out(
    rt: &HostRuntime,
    (line, word, rest): (&str, &str, &str),
    names: &mut Names,
    found: &mut Found,
) -> io::Result<()> {
    match word {
        "vp8" => run(rt, line, Hints::LeftOut, names, found),
        "hinted" => run(rt, rest, Hints::Shown, names, found),
        "plan" => tell_plan(rt.alloc(), rest, found),
        "read" => read(rt, rest, names, found),
        "show" => show(rest, names, found),
        "sum" => sum(rest, names, found),
        _ => Err(malformed()),
    }
}

impl Commands {
    pub(crate) fn new() -> Commands {
        Commands {
            limits: Limits::usual(),
        }
    }

    /// Sets the limits of `limited`.
    fn limit(&mut self, numbers: &str) -> io::Result<()> {
        self.limits = limits(numbers)?;
        Ok(())
    }
}

impl Script for Commands {
    fn begin(&mut self) {
        self.limits = Limits::usual();
    }

    fn command(
        &mut self,
        rt: &HostRuntime,
        line: &str,
        names: &mut Names,
        found: &mut Found,
    ) -> io::Result<()> {
        match line.split_once(' ') {
            Some(("limits", numbers)) => self.limit(numbers),
            Some(("limited", words)) => encode(rt.alloc(), self.limits, words, names, found),
            Some((word, rest)) => carry_out(rt, (line, word, rest), names, found),
            None => Err(malformed()),
        }
    }
}
