//! Tests of a file cut at each of its lengths: counts, output and result follow from the positions of its packets.

ghost use Rattle.std.specs.Prelude.{◌≡◌, ◌≤◌, IfSome};
ghost use Rattle.vp_ivf.specs.declared.fault.FileFault.{FileFault};

use crate::check::equal;
use crate::files::{FILE, PACKETS, Pieces, SIZE, is_whole, other_pixel, packets_in, shown_of};
use std::alloc::Global;
use std::process::Abort;
use vp_base::{Counted, Limits};
use vp_head::PacketFault;
use vp_ivf::FileFault;
use vp_stream::{DecodeFault, Form, Report, decode_all, survey};

/// Returns the fault of the file's first `length` bytes.
fn fault_of(length: usize) -> Option<FileFault>
    ensures { IfSome result (λ fault. fault ≡ FileFault.Torn) }
{
    if is_whole(length) {
        None
    } else {
        Some(FileFault::Torn)
    }
}

/// Surveys the file's first bytes, read in pieces of `size` bytes: the whole packets, and the expected fault.
fn check_survey(rt: &impl Abort, alloc: Global, length: usize, size: usize)
    requires { length ≤ SIZE }
{
    let mut reader = Counted::new(Pieces {
        left: &FILE[..length],
        size,
    });
    let found = survey(alloc, &mut reader, Limits::usual()).expect(rt, "a survey");
    let packets = &PACKETS[..packets_in(length)];
    equal!(rt;
        (length, size, found.head.is_some(), found.fault, found.packets.as_slice()),
        (length, size, length >= 32, fault_of(length), packets)
    );
}

/// The numbers of packets, of shown and of hidden ones, and the packets with faults.
type Numbers<'a> = (u32, u32, u32, &'a [(u32, PacketFault)]);

/// Returns the numbers of a report.
fn numbers_of(end: &Result<Report, DecodeFault>) -> Result<Numbers<'_>, DecodeFault> {
    match end {
        Ok(report) => {
            let faults = report.faults.as_slice();
            Ok((report.packets, report.shown, report.hidden, faults))
        }
        Err(fault) => Err(*fault),
    }
}

/// The packet of the file that has a fault.
const FAULTS: [(u32, PacketFault); 1] = [(3, PacketFault::Truncated)];

/// Returns how decoding the file's first bytes ends: with the numbers of the whole packets, or with a fault.
fn end_of(length: usize) -> Result<Numbers<'static>, DecodeFault> {
    if !is_whole(length) {
        return Err(DecodeFault::File(FileFault::Torn));
    }
    let packets = packets_in(length);
    let hidden = if packets < 2 { 0 } else { 1 };
    let faults = if packets < 4 { &[] } else { FAULTS.as_slice() };
    Ok((packets as u32, shown_of(packets) as u32, hidden, faults))
}

/// Fails the test unless decoding the file's first bytes, read in pieces of `size` bytes, ends so, and the pictures of
/// the whole packets are written.
fn check_end(
    rt: &impl Abort,
    length: usize,
    size: usize,
    end: &Result<Report, DecodeFault>,
    written: &[u8],
) {
    let pictures = 384 * shown_of(packets_in(length));
    equal!(rt; (length, size, numbers_of(end)), (length, size, end_of(length)));
    let found = (written.len(), other_pixel(written));
    equal!(rt; (length, size, found), (length, size, (pictures, None)));
}

/// Decodes the file's first bytes, read in pieces of `size` bytes.
fn check_decoding(rt: &impl Abort, alloc: Global, length: usize, size: usize)
    requires { length ≤ SIZE }
{
    let mut reader = Counted::new(Pieces {
        left: &FILE[..length],
        size,
    });
    let mut writer = Counted::new(Vec::new(alloc));
    let end = decode_all(alloc, &mut reader, &mut writer, Form::I420, Limits::usual());
    check_end(rt, length, size, &end, &writer.into_inner());
}

#[test]
fn each_cut(rt: HostRuntime) {
    for length in 0..=SIZE {
        check_survey(&rt, rt.alloc(), length, 4096);
        check_survey(&rt, rt.alloc(), length, 1);
        check_decoding(&rt, rt.alloc(), length, 4096);
        check_decoding(&rt, rt.alloc(), length, 5);
    }
}
