//! The program `vp8`. Its commands are in the crates `vp_app` and `vp_commands`.
#![tactic(auto)]

use std::cell::Cell;
use std::io;
use std::process::ExitCode;
use vp_app::command_line;
use vp_base::Counted;
use vp_hints::{Meter, Metered, Muted, Outlet, Witness, hint_stream};

fn main(rt: HostRuntime) -> ExitCode {
    let meter = Meter::new(&rt);
    let is_closed = Cell::new(false);
    // `Counted` counts reads and failed calls, which contracts refer to.
    let mut reader = Metered::new(rt.reader(), &meter);
    let mut writer = Witness::new(Outlet::new(io::writer(&rt), &is_closed));
    let mut errors = Counted::new(Muted::new(rt.stderr(), &is_closed));
    let mut input = Counted::new(&mut reader);
    let mut output = Counted::new(&mut writer);
    let status = command_line(&rt, &meter, &mut input, &mut output, &mut errors);
    let _ = hint_stream("standard input", reader.error(), &mut errors);
    let _ = hint_stream("standard output", writer.error(), &mut errors);
    ExitCode::from(status)
}
