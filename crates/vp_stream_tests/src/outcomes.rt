//! Tests of outcomes without pictures.

use crate::check::equal;
use crate::files::{HIDDEN, INTER, KEY};
use vp_base::Limits;
use vp_decode::{Outcome, OutcomeReader};
use vp_head::PacketFault;

// Returns the outcomes of these packets.
fn outcomes_of(outcomes: &mut OutcomeReader, packets: [&[u8]; 8]) -> [Outcome; 8] {
    let mut found = [Outcome::Hidden; 8];
    for i in 0..8usize {
        found[i] = outcomes.outcome(packets[i]);
    }
    found
}

/// An empty packet shows the last picture again, once there is one; a fault leaves no state.
#[test]
fn outcomes_without_pictures(rt: HostRuntime) {
    let mut outcomes = OutcomeReader::new(Limits::usual());
    let packets: [&[u8]; 8] = [&INTER, &HIDDEN, &[], &KEY, &INTER, &[], &KEY[..9], &[]];
    let found = outcomes_of(&mut outcomes, packets);
    let wanted = [
        Outcome::Fault(PacketFault::NoReference),
        Outcome::Hidden,
        Outcome::Hidden,
        Outcome::Shown,
        Outcome::Shown,
        Outcome::Shown,
        Outcome::Fault(PacketFault::Truncated),
        Outcome::Fault(PacketFault::NoReference),
    ];
    equal!(&rt; found, wanted);
}
