//! Progress of long work, told on standard error by a clock.

use crate::film::{BitRate, Film, Ratio};
use crate::numbers::Grouped;
use crate::seen::Seen;
use std::cell::Cell;
use std::fmt;
use std::time::{Clock, Instant};

// The fewest milliseconds between two lines.
const INTERVAL: u64 = 500;

/// What is counted.
#[derive(Clone, Copy, Debug, PartialEq, Eq)]
pub enum Unit {
    /// Packets that are read.
    Packets,
    /// Frames that are encoded.
    Frames,
}

impl fmt::Display for Unit {
    fn fmt<W: fmt::Write>(&self, f: &mut fmt::Formatter<W>) -> fmt::Result {
        f.write_str(match self {
            Unit::Packets => "packets",
            Unit::Frames => "frames",
        })
    }
}

/// How far a command is: what its input's reader and its work tell it. Unless it is switched on, nothing is printed.
#[derive(Drop)]
pub struct Meter<'a, H> {
    system: &'a H,
    unit: Cell<Option<Unit>>,
    size: Cell<Option<u64>>,
    read: Cell<u64>,
    times: Cell<Option<(Instant, Instant)>>,
}

impl<'a, H> Meter<'a, H> {
    /// Creates a meter that is switched off.
    pub fn new(system: &'a H) -> Meter<'a, H> {
        Meter {
            system,
            unit: Cell::new(None),
            size: Cell::new(None),
            read: Cell::new(0),
            times: Cell::new(None),
        }
    }

    /// Switches it on, to count these.
    pub fn count(&self, unit: Unit) {
        self.unit.set(Some(unit));
    }

    /// Begins anew, with a file of this size in bytes, if that is known.
    pub fn begin(&self, size: Option<u64>) {
        self.size.set(size);
        self.read.set(0);
        self.times.set(None);
    }
}

impl<H: Clock + Eprint> Meter<'_, H> {
    /// Tells what was read, if packets are counted.
    pub fn has_read(&self, seen: &Seen) {
        self.read.set(seen.bytes());
        if self.unit.get() == Some(Unit::Packets) {
            self.tell(Unit::Packets, seen.packets().whole, None);
        }
    }

    /// Tells the number of frames that were made, if frames are counted, the film that they are, and the sum of their
    /// squared errors.
    pub fn has_made(&self, frames: u32, film: Film, error: u128) {
        if self.unit.get() == Some(Unit::Frames) {
            self.tell(Unit::Frames, u64::from(frames), Some((film, error)));
        }
    }

    // Prints how far the work is, not oftener than twice a second.
    fn tell(&self, unit: Unit, count: u64, made: Option<(Film, u128)>) {
        let Ok(now) = Instant::now(self.system) else {
            return;
        };
        let (start, told) = match self.times.get() {
            Some(times) => times,
            None => (now, now),
        };
        if millis(told, now) < INTERVAL {
            self.times.set(Some((start, told)));
            return;
        }
        self.times.set(Some((start, now)));
        let _ = self.system.eprintln(Standing {
            count,
            unit,
            millis: millis(start, now),
            read: self.read.get(),
            size: self.size.get(),
            made,
        });
    }
}

// The milliseconds from one time to another.
fn millis(from: Instant, to: Instant) -> u64 {
    let duration = to.duration_since(from);
    duration
        .as_secs()
        .saturating_mul(1_000)
        .saturating_add(u64::from(duration.subsec_millis()))
}

// How far the work is, after a number of milliseconds.
#[derive(Clone, Copy, Drop)]
struct Standing {
    count: u64,
    unit: Unit,
    millis: u64,
    read: u64,
    size: Option<u64>,
    made: Option<(Film, u128)>,
}

impl Standing {
    // Writes what was counted, its share of the whole if the size is known, and how much of it a second takes.
    fn write_pace<W: fmt::Write>(&self, f: &mut fmt::Formatter<W>) -> fmt::Result {
        let (count, unit) = (Grouped(self.count), self.unit);
        write!(f, "  {count} {unit}")?;
        if let Some(size) = self.size {
            let percent = share(self.read.saturating_mul(100), size).min(100);
            write!(f, ", {percent} %")?;
        }
        let tenths = share(self.count.saturating_mul(10_000), self.millis);
        let (pace, tenth) = (Grouped(tenths / 10), tenths % 10);
        write!(f, ", {pace}.{tenth} a second")
    }
}

/// Writes `1,234 packets, 40 %, 812.5 a second, 0:12 left`; without the share and the rest if the size isn't known. Of
/// a film that is encoded, ` 96.0 kbit/s, PSNR 38.2 dB,` comes before the rest.
impl fmt::Display for Standing {
    fn fmt<W: fmt::Write>(&self, f: &mut fmt::Formatter<W>) -> fmt::Result {
        self.write_pace(f)?;
        if let Some((film, error)) = self.made {
            write_quality(film, self.count, error, f)?;
        }
        match self.size {
            Some(size) => write_rest(self.millis, self.read, size, f),
            None => Ok(()),
        }
    }
}

// Writes the bits a second of a film, if it has a rate, and the peak signal-to-noise ratio.
fn write_quality<W: fmt::Write>(
    film: Film,
    frames: u64,
    error: u128,
    f: &mut fmt::Formatter<W>,
) -> fmt::Result {
    if let Some(bits) = film.bits_a_second(frames) {
        let rate = BitRate(bits);
        write!(f, ", {rate}")?;
    }
    let ratio = Ratio(film.samples(frames), error);
    write!(f, ", {ratio}")
}

// Writes the time that is left, if a part of a size was read in a number of milliseconds.
fn write_rest<W: fmt::Write>(
    millis: u64,
    read: u64,
    size: u64,
    f: &mut fmt::Formatter<W>,
) -> fmt::Result {
    let rest = share(size.saturating_sub(read), 1_000);
    let left = share(millis.saturating_mul(rest), read);
    let (minutes, seconds) = (left / 60, left % 60);
    write!(f, ", {minutes}:{seconds:02} left")
}

// A quotient; 0 if there is none.
fn share(whole: u64, parts: u64) -> u64 {
    whole.checked_div(parts).unwrap_or(0)
}
