//! The transcript commands for connections to a hub. `hub NAME..` creates a hub with streams of these names. `feed NAME
//! TEXT`, `end NAME`, `open NUMBER`, `send NUMBER TEXT` and `shut NUMBER` are its events; `open FROM..TO` hands it
//! several in one run. Printed are the response, whether the connection is closed, and the number of packets decoded.
//! `ask TEXT` opens a connection, sends the text and shuts it; `cut SIZE TEXT` does so in pieces of `SIZE` bytes.
//! `limits PIXELS BYTES PACKETS CACHE` sets the limits of the next hub. `vp8 serve WORD.. < NAME` creates and feeds a
//! hub as the program does.

use crate::commands::{tell_line, words_of};
use std::alloc::{AllocError, Global};
use std::io;
use std::ops::Range;
use vp_app::{feed_all, new_hub};
use vp_args::{ServeArgs, Task, read_args};
use vp_base::{ByteList, Counted, Limits};
use vp_hub::{Event, Hub, HubFault, NewFault, Reply};
use vp_scripts::{Found, Names, Script, limits, malformed, number};

/// The number of the connection that `ask` and `cut` open.
const VISITOR: u32 = 99;

/// A hub, and the limits of the next one.
#[derive(Drop)]
pub(crate) struct Connections {
    alloc: Global,
    limits: Limits,
    hub: Option<Hub>,
}

/// Returns the bytes of a text as a list.
fn list(names: &Names, text: &str) -> io::Result<ByteList> {
    Ok(ByteList::from_vec(names.read(text)?))
}

/// Returns the event that feeds a text to a stream.
fn feed(names: &Names, stream: &str, text: &str) -> io::Result<Event> {
    let stream = list(names, stream)?;
    Ok(Event::Feed(stream, list(names, text)?))
}

/// Parses an event.
fn event(names: &Names, line: &str) -> io::Result<Event> {
    let (word, rest) = line.split_once(' ').ok_or(malformed())?;
    let (first, text) = rest.split_once(' ').unwrap_or((rest, ""));
    match word {
        "feed" => feed(names, first, text),
        "end" => Ok(Event::End(list(names, first)?)),
        "open" => Ok(Event::Open(number(first)?)),
        "send" => Ok(Event::Bytes(number(first)?, list(names, text)?)),
        "shut" => Ok(Event::Shut(number(first)?)),
        _ => Err(malformed()),
    }
}

/// Prints a response.
fn tell_reply(reply: &Reply, found: &mut Found) -> Result<(), AllocError> {
    found.bytes_if_any("reply", reply.bytes.as_slice())?;
    if reply.close {
        found.word("closes")?;
    }
    Ok(())
}

/// Prints the answer to an event.
fn tell_answer(
    alloc: Global,
    answer: &Result<Reply, HubFault>,
    found: &mut Found,
) -> Result<(), AllocError> {
    match answer {
        Ok(reply) => tell_reply(reply, found),
        Err(fault) => tell_line(format!(in alloc; "refused {fault}"), found),
    }
}

/// Hands an event to a hub, and prints the answer.
fn answer(
    alloc: Global,
    hub: &mut Hub,
    event: &Event,
    found: &mut Found,
) -> Result<(), AllocError> {
    tell_answer(alloc, &hub.step(event), found)
}

/// Hands an event to a hub, and prints the result.
fn step(alloc: Global, hub: &mut Hub, event: &Event, found: &mut Found) -> Result<(), AllocError> {
    answer(alloc, hub, event, found)?;
    found.count_if_any("work", hub.work())
}

/// Prints the answers to events.
fn tell_answers(
    alloc: Global,
    answers: &[Result<Reply, HubFault>],
    found: &mut Found,
) -> Result<(), AllocError> {
    for answer in answers {
        tell_answer(alloc, answer, found)?;
    }
    Ok(())
}

/// Hands events to a hub in one run, and prints the answer to each.
fn run(
    alloc: Global,
    hub: &mut Hub,
    events: &[Event],
    found: &mut Found,
) -> Result<(), AllocError> {
    let answers = hub.run(events)?;
    tell_answers(alloc, &answers, found)
}

/// Replaces a hub.
fn set(to: &mut Option<Hub>, hub: Option<Hub>) {
    *to = hub;
}

/// Feeds a hub, if there is one, from the files of its streams and this input. Returns whether that goes well.
fn is_fed(rt: &HostRuntime, hub: Option<&mut Hub>, service: &ServeArgs<'_>, input: &[u8]) -> bool {
    match hub {
        Some(hub) => feed_all(rt, hub, &service.streams, &mut Counted::new(input)).is_ok(),
        None => false,
    }
}

/// Creates a hub with these streams, fed from their files and this input; or none.
fn fill(rt: &HostRuntime, to: &mut Option<Hub>, service: &ServeArgs<'_>, input: &[u8]) {
    set(to, new_hub(rt.alloc(), service).ok());
    if !is_fed(rt, to.as_mut(), service, input) {
        set(to, None);
    }
}

/// Parses arguments of `vp8 serve`.
fn asked<'a>(alloc: Global, words: &'a [&'a str]) -> Option<ServeArgs<'a>> {
    match read_args(alloc, words) {
        Ok(Task::Serve(service)) => Some(service),
        _ => None,
    }
}

/// Creates a hub and feeds it as the program does with these arguments. Returns whether they are arguments of `serve`.
fn serve_words(rt: &HostRuntime, to: &mut Option<Hub>, words: &[&str], input: &[u8]) -> bool {
    match asked(rt.alloc(), words) {
        Some(service) => {
            fill(rt, to, &service, input);
            true
        }
        None => false,
    }
}

/// Creates a hub and feeds it as the program does with the arguments in a line; the input has a name.
fn serve(rt: &HostRuntime, to: &mut Option<Hub>, line: &str, names: &Names) -> io::Result<()> {
    let (line, name) = line.split_once(" < ").ok_or(malformed())?;
    let input = names.get(name)?;
    let words = words_of(rt.alloc(), line)?;
    if serve_words(rt, to, &words, input) {
        Ok(())
    } else {
        Err(malformed())
    }
}

/// Appends the names of the streams in a line.
fn add_streams(line: &str, names: &Names, streams: &mut Vec<ByteList>) -> io::Result<()> {
    for name in line.split(' ') {
        streams.push(list(names, name)?)?;
    }
    Ok(())
}

/// Creates a hub of these streams.
fn create(
    alloc: Global,
    to: &mut Option<Hub>,
    streams: Vec<ByteList>,
    limits: Limits,
) -> Result<(), NewFault> {
    match Hub::new(alloc, streams, limits) {
        Ok(hub) => {
            set(to, Some(hub));
            Ok(())
        }
        Err(fault) => Err(fault),
    }
}

/// Prints why a hub is not created, if it is not.
fn tell_created(created: Result<(), NewFault>, found: &mut Found) -> io::Result<()> {
    match created {
        Ok(()) => Ok(()),
        Err(NewFault::Names) => Ok(found.word("refused Names")?),
        Err(NewFault::Memory) => Err(malformed()),
    }
}

/// Sends a piece, and appends the response.
fn send_piece(
    alloc: Global,
    hub: &mut Hub,
    piece: &[u8],
    replies: &mut Vec<u8>,
) -> Result<(), AllocError> {
    let event = Event::Bytes(VISITOR, ByteList::from_vec(piece.to_vec(alloc)?));
    match hub.step(&event) {
        Ok(reply) => replies.extend_from_slice(reply.bytes.as_slice()),
        Err(_) => Ok(()),
    }
}

/// Sends bytes in pieces, and appends all responses.
fn send_all(
    alloc: Global,
    hub: &mut Hub,
    (bytes, size): (&[u8], usize),
    replies: &mut Vec<u8>,
) -> Result<(), AllocError> {
    for piece in bytes.chunks(size.max(1)) {
        send_piece(alloc, hub, piece, replies)?;
    }
    Ok(())
}

/// Sends bytes in pieces, and prints all responses as one.
fn send(
    alloc: Global,
    hub: &mut Hub,
    pieces: (&[u8], usize),
    found: &mut Found,
) -> Result<(), AllocError> {
    let mut replies = Vec::new(alloc);
    send_all(alloc, hub, pieces, &mut replies)?;
    found.bytes("reply", &replies)
}

/// Opens the visitor's connection, sends bytes in pieces, and shuts it.
fn visit_in_pieces(
    alloc: Global,
    hub: &mut Hub,
    pieces: (&[u8], usize),
    found: &mut Found,
) -> Result<(), AllocError> {
    let _ = hub.step(&Event::Open(VISITOR));
    let sent = send(alloc, hub, pieces, found);
    let _ = hub.step(&Event::Shut(VISITOR));
    sent
}

/// Opens the visitor's connection, hands an event of it to the hub, and shuts it.
fn visit(alloc: Global, hub: &mut Hub, event: &Event, found: &mut Found) -> Result<(), AllocError> {
    let _ = hub.step(&Event::Open(VISITOR));
    let stepped = step(alloc, hub, event, found);
    let _ = hub.step(&Event::Shut(VISITOR));
    stepped
}

/// Appends the events that open these connections.
fn add_opens(numbers: Range<u32>, events: &mut Vec<Event>) -> Result<(), AllocError> {
    for number in numbers {
        events.push(Event::Open(number))?;
    }
    Ok(())
}

/// Opens connections in one run.
fn open_each(
    alloc: Global,
    hub: &mut Hub,
    numbers: Range<u32>,
    found: &mut Found,
) -> Result<(), AllocError> {
    let mut events = Vec::new(alloc);
    add_opens(numbers, &mut events)?;
    run(alloc, hub, &events, found)
}

impl Connections {
    pub(crate) fn new(alloc: Global) -> Connections {
        Connections {
            alloc,
            limits: Limits::usual(),
            hub: None,
        }
    }

    /// Creates the hub.
    fn make(&mut self, line: &str, names: &Names, found: &mut Found) -> io::Result<()> {
        let mut streams = Vec::new(self.alloc);
        add_streams(line, names, &mut streams)?;
        let created = create(self.alloc, &mut self.hub, streams, self.limits);
        tell_created(created, found)
    }

    /// Returns the hub.
    fn hub(&mut self) -> io::Result<&mut Hub> {
        self.hub.as_mut().ok_or(malformed())
    }

    /// Opens connections in one run, given `FROM..TO`.
    fn open_all(&mut self, range: &str, found: &mut Found) -> io::Result<()> {
        let alloc = self.alloc;
        let (from, to) = range.split_once("..").ok_or(malformed())?;
        let numbers = number(from)?..number(to)?;
        Ok(open_each(alloc, self.hub()?, numbers, found)?)
    }

    /// Sends a text in one piece.
    fn ask(&mut self, text: &str, names: &Names, found: &mut Found) -> io::Result<()> {
        let alloc = self.alloc;
        let hub = self.hub()?;
        let event = Event::Bytes(VISITOR, list(names, text)?);
        Ok(visit(alloc, hub, &event, found)?)
    }

    /// Sends a text in pieces, given `SIZE TEXT`.
    fn cut(&mut self, line: &str, names: &Names, found: &mut Found) -> io::Result<()> {
        let alloc = self.alloc;
        let (size, text) = line.split_once(' ').ok_or(malformed())?;
        let size = number(size)? as usize;
        let hub = self.hub()?;
        let bytes = names.read(text)?;
        Ok(visit_in_pieces(alloc, hub, (&bytes, size), found)?)
    }

    /// Hands the event in a line to the hub.
    fn hand(&mut self, line: &str, names: &Names, found: &mut Found) -> io::Result<()> {
        let alloc = self.alloc;
        let hub = self.hub()?;
        let event = event(names, line)?;
        Ok(step(alloc, hub, &event, found)?)
    }

    /// Sets the limits of the next hub.
    fn limit(&mut self, numbers: &str) -> io::Result<()> {
        self.limits = limits(numbers)?;
        Ok(())
    }

    /// Carries out a command that needs no files: a line of this word and the rest.
    fn carry_out(
        &mut self,
        (line, word, rest): (&str, &str, &str),
        names: &Names,
        found: &mut Found,
    ) -> io::Result<()> {
        match word {
            "limits" => self.limit(rest),
            "hub" => self.make(rest, names, found),
            "open" if rest.split_once("..").is_some() => self.open_all(rest, found),
            "ask" => self.ask(rest, names, found),
            "cut" => self.cut(rest, names, found),
            _ => self.hand(line, names, found),
        }
    }
}

impl Script for Connections {
    fn begin(&mut self) {
        set(&mut self.hub, None);
        self.limits = Limits::usual();
    }

    fn command(
        &mut self,
        rt: &HostRuntime,
        line: &str,
        names: &mut Names,
        found: &mut Found,
    ) -> io::Result<()> {
        match line.split_once(' ') {
            Some(("vp8", _)) => serve(rt, &mut self.hub, line, names),
            Some((word, rest)) => self.carry_out((line, word, rest), names, found),
            None => Err(malformed()),
        }
    }
}
