//! The words of each command: a table of its options and operands, with their help.

ghost use Rattle.std.specs.Prelude.{◌≡◌, IfOk, false};
ghost use Rattle.clap.specs.Words.{app_of, rule_of};
ghost use Rattle.clap.specs.declared.builder.command.Command.TheViews.{out-Command as fields_of};
ghost use Rattle.vp_args.specs.Args.{program, vp8_app};
ghost use Rattle.vp_args.specs.Tables.{is_required, part_app, with_parts, word_rule};

use clap::{Arg, ArgAction, Command};
use std::alloc::{AllocError, Global};

/// What a word is.
pub(crate) enum Form {
    /// A flag.
    Flag,
    /// An option with a value, which help calls so.
    Setting(&'static str),
    /// An operand.
    Operand,
    /// An operand that takes one value or more.
    Operands,
}

/// When a word must be present.
pub(crate) enum Need {
    /// Never.
    Never,
    /// Always.
    Always,
    /// Unless many connections are served at once.
    InTurns,
    /// If many connections are served at once.
    OfMany,
}

/// An option or an operand.
pub(crate) struct Word {
    pub(crate) name: &'static str,
    pub(crate) form: Form,
    pub(crate) need: Need,
    /// The heading of the group that help shows it in, if it has a group of its own.
    pub(crate) group: Option<&'static str>,
    pub(crate) help: &'static str,
}

/// A subcommand, with its words in the order of its help.
pub(crate) struct Part {
    pub(crate) name: &'static str,
    pub(crate) about: &'static str,
    /// What help shows last: examples.
    pub(crate) examples: &'static str,
    pub(crate) words: &'static [Word],
}

// The groups of help.
const CHOICE: Option<&str> = Some("Which pictures");

const LIMITS: Option<&str> = Some("Limits");

const QUALITY: Option<&str> = Some("Quality and size");

const MOTION: Option<&str> = Some("Frames and motion");

const MANY: Option<&str> = Some("Many connections at once");

// The words that more than one command has.
const PROGRESS: Word = Word {
    name: "progress",
    form: Form::Flag,
    need: Need::Never,
    group: None,
    help: "Prints on standard error how far the work is, at most twice a second",
};

const MAX_PACKETS: Word = Word {
    name: "max-packets",
    form: Form::Setting("N"),
    need: Need::Never,
    group: LIMITS,
    help: "The most packets of a file, 1 to 16777216 [default: 1048576]",
};

const MAX_PIXELS: Word = Word {
    name: "max-pixels",
    form: Form::Setting("N"),
    need: Need::Never,
    group: LIMITS,
    help: "The most pixels of a picture, 1 to 268402689 [default: 16777216]; what reads such pictures needs it again",
};

const FILES: Word = Word {
    name: "IN",
    form: Form::Operands,
    need: Need::Always,
    group: None,
    help: "The IVF files, or - for standard input",
};

/// The program's subcommands.
const PARTS: [Part; 6] = [
    Part {
        name: "decode",
        about: "Decodes an IVF file and writes each shown picture, one after another",
        examples: "Examples:\n\
        \x20 vp8 decode film.ivf film.i420\n\
        \x20 vp8 decode --y4m film.ivf - | ffmpeg -i - film.mp4\n\
        \x20 vp8 decode --md5-each film.ivf",
        words: &DECODE_WORDS,
    },
    Part {
        name: "encode",
        about: "Encodes a YUV4MPEG2 file (4:2:0) as VP8 in an IVF file and reports frames and squared error",
        examples: "A number out of its range is the fault Settings (status 1); its option is named unless OUT is -.\n\n\
        Example:\n  ffmpeg -i film.mp4 -pix_fmt yuv420p -f yuv4mpegpipe - | vp8 encode --qi 24 --subpel - film.ivf",
        words: &ENCODE_WORDS,
    },
    Part {
        name: "info",
        about: "Lists IVF files: size, rate, and for each packet its bytes and Shown, Hidden or its fault",
        examples: "A packet of 0 bytes is a frame that was dropped: the picture before it is shown again. Fewer\n\
        packets than the file's head says are told on standard error, and the status stays.\n\n\
        Examples:\n\
        \x20 vp8 info film.ivf\n\
        \x20 vp8 info --json *.ivf | jq '.packets | length'",
        words: &INFO_WORDS,
    },
    Part {
        name: "check",
        about: "Decodes IVF files, and counts faults and packets that are read past their end (status 1)",
        examples: "Packets without a byte (dropped frames; --verbose names the first) are no damage, nor are fewer\n\
        packets than the file's head says: writers put other numbers there. Both are told on standard error.\n\n\
        Example: vp8 check --verbose *.ivf",
        words: &CHECK_WORDS,
    },
    Part {
        name: "picture",
        about: "Writes one picture of an IVF or WebP file as WebP, or uncompressed, in its size or smaller",
        examples: "Example: vp8 picture --packet 300 --scale 4 film.ivf thumbnail.webp",
        words: &PICTURE_WORDS,
    },
    Part {
        name: "serve",
        about: "Serves frames of IVF files over HTTP, one connection after another, then ends",
        examples: "Paths:\n\
        \x20 /streams                 the names\n\
        \x20 /s/NAME/info             state, number of packets, size, rate\n\
        \x20 /s/NAME/frame/N          the picture of packet N, counted from 0, as I420\n\
        \x20 /s/NAME/y4m/N            the same as a Y4M file of one frame\n\
        \x20 /s/NAME/webp/N           with --webp: as a WebP file; smaller: /s/NAME/webp/N/2, 4 and 8\n\n\
        Examples:\n\
        \x20 vp8 serve --listen 127.0.0.1:8080 --connections 100 a=film.ivf\n\
        \x20 vp8 serve --listen 127.0.0.1:8080 --max-connections 64 --follow live=recording.ivf",
        words: &SERVE_WORDS,
    },
];

const DECODE_WORDS: [Word; 10] = [
    Word {
        name: "y4m",
        form: Form::Flag,
        need: Need::Never,
        group: None,
        help: "Writes YUV4MPEG2 (size and rate included) instead of raw I420",
    },
    Word {
        name: "frame",
        form: Form::Setting("N"),
        need: Need::Never,
        group: CHOICE,
        help: "Writes the picture of packet N alone, counted from 0",
    },
    Word {
        name: "frames",
        form: Form::Setting("A-B"),
        need: Need::Never,
        group: CHOICE,
        help: "Writes the pictures of packets A to B alone, counted from 0",
    },
    Word {
        name: "md5",
        form: Form::Flag,
        need: Need::Never,
        group: None,
        help: "Prints the MD5 sum of what OUT would hold, and does not write OUT, which may be left out",
    },
    Word {
        name: "md5-each",
        form: Form::Flag,
        need: Need::Never,
        group: None,
        help: "Prints the MD5 sum of each picture, counted from 0, and then that of --md5",
    },
    PROGRESS,
    MAX_PACKETS,
    MAX_PIXELS,
    Word {
        name: "IN",
        form: Form::Operand,
        need: Need::Always,
        group: None,
        help: "The IVF file, or - for standard input",
    },
    Word {
        name: "OUT",
        form: Form::Operand,
        need: Need::Never,
        group: None,
        help: "The file of pictures, or - for standard output",
    },
];

const ENCODE_WORDS: [Word; 15] = [
    Word {
        name: "qi",
        form: Form::Setting("Q"),
        need: Need::Never,
        group: QUALITY,
        help: "The quantiser index, 0 (loses least) to 127 [default: 32]",
    },
    Word {
        name: "filter",
        form: Form::Setting("LEVEL"),
        need: Need::Never,
        group: QUALITY,
        help: "The level of the loop filter, 0 (none) to 63 [default: 16]",
    },
    Word {
        name: "sharpness",
        form: Form::Setting("N"),
        need: Need::Never,
        group: QUALITY,
        help: "The sharpness of the loop filter, 0 to 7 [default: 0]",
    },
    Word {
        name: "simple",
        form: Form::Flag,
        need: Need::Never,
        group: QUALITY,
        help: "Uses the simple loop filter, which filters luma alone",
    },
    Word {
        name: "key-every",
        form: Form::Setting("N"),
        need: Need::Never,
        group: MOTION,
        help: "Frames from one key frame to the next, at least 1 [default: 64]",
    },
    Word {
        name: "golden-every",
        form: Form::Setting("N"),
        need: Need::Never,
        group: MOTION,
        help: "Frames from one golden frame to the next; 0: key frames only [default: 0]",
    },
    Word {
        name: "range",
        form: Form::Setting("PIXELS"),
        need: Need::Never,
        group: MOTION,
        help: "The range of motion vectors in whole pixels, 0 to 64 [default: 16]",
    },
    Word {
        name: "subpel",
        form: Form::Flag,
        need: Need::Never,
        group: MOTION,
        help: "Refines motion vectors to quarter pixels: fewer bytes, more time",
    },
    Word {
        name: "partitions",
        form: Form::Setting("N"),
        need: Need::Never,
        group: QUALITY,
        help: "Token partitions of a packet: 1, 2, 4 or 8 [default: 1]",
    },
    PROGRESS,
    Word {
        name: "live",
        form: Form::Flag,
        need: Need::Never,
        group: None,
        help: "Writes each packet as soon as its picture is read; a source that breaks off leaves what was encoded",
    },
    Word {
        name: "max-packets",
        form: Form::Setting("N"),
        need: Need::Never,
        group: LIMITS,
        help: "The most pictures of IN, 1 to 16777216 [default: 1048576]",
    },
    MAX_PIXELS,
    Word {
        name: "IN",
        form: Form::Operand,
        need: Need::Always,
        group: None,
        help: "The YUV4MPEG2 file, or - for standard input",
    },
    Word {
        name: "OUT",
        form: Form::Operand,
        need: Need::Always,
        group: None,
        help: "The IVF file, or - for standard output",
    },
];

const INFO_WORDS: [Word; 6] = [
    Word {
        name: "long",
        form: Form::Flag,
        need: Need::Never,
        group: None,
        help: "Says behind each packet that is read past its end that it is corrupt",
    },
    Word {
        name: "json",
        form: Form::Flag,
        need: Need::Never,
        group: None,
        help: "Prints a JSON document for each file, on a line of its own",
    },
    PROGRESS,
    MAX_PACKETS,
    MAX_PIXELS,
    FILES,
];

const CHECK_WORDS: [Word; 5] = [
    Word {
        name: "verbose",
        form: Form::Flag,
        need: Need::Never,
        group: None,
        help: "Prints a line for each packet that has a fault or is read past its end",
    },
    PROGRESS,
    MAX_PACKETS,
    MAX_PIXELS,
    FILES,
];

const PICTURE_WORDS: [Word; 7] = [
    Word {
        name: "packet",
        form: Form::Setting("N"),
        need: Need::Never,
        group: CHOICE,
        help: "The packet whose picture is written, counted from 0 [default: the first that shows one]",
    },
    Word {
        name: "scale",
        form: Form::Setting("K"),
        need: Need::Never,
        group: QUALITY,
        help: "What the picture's sides are divided by: 1, 2, 4 or 8 [default: 1]",
    },
    Word {
        name: "qi",
        form: Form::Setting("Q"),
        need: Need::Never,
        group: QUALITY,
        help: "The quantiser index of a picture that is encoded anew, 0 (loses least) to 127 [default: 8]",
    },
    MAX_PACKETS,
    MAX_PIXELS,
    Word {
        name: "IN",
        form: Form::Operand,
        need: Need::Always,
        group: None,
        help: "The IVF or WebP file, or - for standard input",
    },
    Word {
        name: "OUT",
        form: Form::Operand,
        need: Need::Always,
        group: None,
        help: "The file of the picture: its name ends in .webp, .y4m, .i420 or .ppm",
    },
];

const SERVE_WORDS: [Word; 12] = [
    Word {
        name: "listen",
        form: Form::Setting("ADDR"),
        need: Need::Always,
        group: None,
        help: "The address and port to listen on, as 127.0.0.1:8080; another text is a fault (status 1)",
    },
    Word {
        name: "connections",
        form: Form::Setting("N"),
        need: Need::InTurns,
        group: None,
        help: "The number of connections to serve",
    },
    Word {
        name: "cache",
        form: Form::Setting("N"),
        need: Need::Never,
        group: None,
        help: "The number of decoded pictures to cache, 1 to 4096 [default: 16]",
    },
    Word {
        name: "show-address",
        form: Form::Flag,
        need: Need::Never,
        group: None,
        help: "Prints the address and port, which shows the port chosen for port 0",
    },
    Word {
        name: "webp",
        form: Form::Flag,
        need: Need::Never,
        group: None,
        help: "Serves pictures as WebP files too, at /s/NAME/webp/N, and smaller at /s/NAME/webp/N/2, 4 and 8",
    },
    Word {
        name: "max-connections",
        form: Form::Setting("K"),
        need: Need::OfMany,
        group: MANY,
        help: "Serves up to this many connections at once, 1 to 64; --connections may then be left out",
    },
    Word {
        name: "idle-timeout",
        form: Form::Setting("SECONDS"),
        need: Need::Never,
        group: MANY,
        help: "Seconds after which an idle connection is closed, 1 to 86400 [default: 30]",
    },
    Word {
        name: "cursors",
        form: Form::Setting("N"),
        need: Need::Never,
        group: MANY,
        help: "Decoders kept at their places in streams, so that packets asked for in order are decoded once each, \
        0 to 64 [default: 16]",
    },
    Word {
        name: "follow",
        form: Form::Flag,
        need: Need::Never,
        group: MANY,
        help: "Reads the files on as they grow",
    },
    Word {
        name: "poll-interval",
        form: Form::Setting("MILLISECONDS"),
        need: Need::Never,
        group: MANY,
        help: "Milliseconds between two polls of the files, 1 to 60000 [default: 100]",
    },
    Word {
        name: "access-log",
        form: Form::Flag,
        need: Need::Never,
        group: MANY,
        help: "Prints a line for each request on standard error",
    },
    Word {
        name: "NAME=FILE",
        form: Form::Operands,
        need: Need::Always,
        group: None,
        help: "The name of a stream and its IVF file, or - for standard input",
    },
];

/// The program's command, with its subcommands.
pub(crate) fn program<'a>(alloc: Global, many: bool) -> Result<Command<'a>, AllocError>
    ensures { IfOk result (λ c. app_of c ≡ program many) }
{
    with_parts(alloc, many, PARTS.as_slice())
}

// The program's command, with these subcommands.
fn with_parts<'a>(alloc: Global, many: bool, parts: &[Part]) -> Result<Command<'a>, AllocError>
    ensures { IfOk result (λ c. app_of c ≡ with_parts many vp8_app parts.now) }
{
    let mut command = Command::new(alloc, "vp8")
        .about("Decodes, encodes and serves VP8 video")
        .after_help("The manual: man vp8")
        .version("0.2.0")
        .subcommand_required(true);
    for part in parts {
        let made = part_command(alloc, many, part)?;
        command = command.subcommand(made)?;
    }
    Ok(command)
}

// A subcommand, with its words.
fn part_command<'a>(alloc: Global, many: bool, part: &Part) -> Result<Command<'a>, AllocError>
    ensures app { IfOk result (λ c. app_of c ≡ part_app many part.now) }
    ensures local { IfOk result (λ c. (fields_of c).has_globals ≡ false) }
{
    let mut command = Command::new(alloc, part.name)
        .about(part.about)
        .after_help(part.examples);
    for word in part.words {
        command = command.arg(argument(alloc, many, word))?;
    }
    Ok(command)
}

// An argument with a word's name, help, group and form.
fn argument<'a>(alloc: Global, many: bool, word: &Word) -> Arg<'a>
    ensures rule { rule_of result ≡ word_rule many word.now }
    ensures local { result.global ≡ false }
{
    let plain = Arg::new(alloc, word.name)
        .help(word.help)
        .required(is_required(many, &word.need));
    let arg = match word.group {
        Some(heading) => plain.help_heading(heading),
        None => plain,
    };
    match word.form {
        Form::Flag => arg.long(word.name).action(ArgAction::SetTrue),
        Form::Setting(value) => arg.long(word.name).value_name(value).action(ArgAction::Set),
        Form::Operand => arg.action(ArgAction::Set),
        Form::Operands => arg.num_args(1..).action(ArgAction::Append),
    }
}

// Whether a word with this need must be present.
fn is_required(many: bool, need: &Need) -> bool
    ensures { result ≡ is_required many need.now }
{
    match need {
        Need::Never => false,
        Need::Always => true,
        Need::InTurns => !many,
        Need::OfMany => many,
    }
}
