//! Readers that tell a meter how far they are.

ghost use Rattle.std.specs.Prelude.{◌≡◌, None, Some, IfErr, IfOk, take};
ghost use Rattle.std.specs.Io.{ReadsAtMost};
ghost use Rattle.std.specs.Io.KnownBytes.{ReadConsumes};
ghost use Rattle.vp_hints.specs.Metered.{metered_remaining, metered_witness};
ghost use Rattle.vp_hints.specs.Seen.{more_seen, nothing_seen};
ghost use Rattle.vp_hints.specs.Witness.{witness_error, witness_inner, witness_sight};

use crate::meter::Meter;
use crate::witness::Witness;
use std::io;
use std::io::Read;
use std::time::Clock;

/// A reader that forwards each call to a witness, and tells a meter what was read.
#[derive(Drop)]
pub struct Metered<'a, R, H> {
    witness: Witness<R>,
    meter: &'a Meter<'a, H>,
}

impl<'a, R, H> Metered<'a, R, H> {
    /// Wraps a reader.
    pub fn new(reader: R, meter: &'a Meter<'a, H>) -> Metered<'a, R, H>
        ensures inner { witness_inner (metered_witness result) ≡ reader }
        ensures sight { witness_sight (metered_witness result) ≡ nothing_seen }
        ensures error { witness_error (metered_witness result) ≡ None }
    {
        Metered {
            witness: Witness::new(reader),
            meter,
        }
    }

    /// The error of the last call that failed.
    pub fn error(&self) -> Option<io::Error>
        ensures { result ≡ witness_error (metered_witness self.now) }
    {
        self.witness.error()
    }

    /// Unwraps the witness.
    pub fn into_witness(self) -> Witness<R>
        ensures { result ≡ metered_witness self.entry }
    {
        let Metered { witness, meter: _ } = self;
        witness
    }
}

impl<R: Read, H: Clock + Eprint> Read for Metered<'_, R, H> {
    ghost remaining = { metered_remaining R.remaining };

    fn read(&mut self, buf: &mut [u8]) -> io::Result<usize>
        ensures bound { ReadsAtMost result buf.new }
        ensures bytes { ReadConsumes (metered_remaining R.remaining self.old)
            (metered_remaining R.remaining self.new) result buf.new }
        ensures seen { IfOk result (λ n. witness_sight (metered_witness self.new)
            ≡ more_seen (witness_sight (metered_witness self.old)) (take n buf.new)) }
        ensures failed { IfErr result (λ error. witness_error (metered_witness self.new) ≡ Some error) }
    {
        let result = self.witness.read(buf);
        self.meter.has_read(self.witness.seen());
        result
    }
}
