//! Tests that rows of macroblocks are filtered one row after they are rebuilt.

use crate::check::equal;
use std::process::Abort;
use vp_base::{Limits, Picture};
use vp_decode::{Decoder, Outcome};
use vp_loop::{Level, RowFilter, filter_row};

/// A filter that records the row of each call, and the first pixels of luma rows 31 and 47 at that time.
#[derive(Drop)]
struct Noting {
    seen: [(usize, u8, u8); 4],
    asked: usize,
}

/// Returns the first pixel of a luma row, or 1 if there is no such row.
fn first_pixel(picture: &Picture, row: usize) -> u8 {
    let plane = picture.plane(0);
    if row < plane.height() && 0 < plane.width() {
        plane.get(0, row)
    } else {
        1
    }
}

impl RowFilter for Noting {
    fn row(&mut self, picture: &mut Picture, levels: &[Level], row: usize) {
        if self.asked < 4 {
            self.seen[self.asked] = (row, first_pixel(picture, 31), first_pixel(picture, 47));
            self.asked += 1;
        }
        filter_row(picture, levels, row);
    }
}

// Decodes a key packet of 16 by 48 pixels, and compares what the filter records.
fn check_rows(rt: &impl Abort, decoder: &mut Decoder) {
    let packet = [0x10, 0, 0, 0x9d, 0x01, 0x2a, 0x10, 0, 0x30, 0];
    let mut filter = Noting {
        seen: [(9, 9, 9); 4],
        asked: 0,
    };
    equal!(rt; decoder.decode_with(&packet, &mut filter), Ok(Outcome::Shown));
    equal!(rt; filter.seen, [(0, 129, 0), (1, 129, 129), (2, 129, 129), (9, 9, 9)]);
}

#[test]
fn filter_is_one_row_behind(rt: HostRuntime) {
    let mut decoder = Decoder::new(rt.alloc(), Limits::usual());
    check_rows(&rt, &mut decoder);
}
