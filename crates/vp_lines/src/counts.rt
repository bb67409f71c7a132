//! The numbers of packets that are printed.

ghost use Rattle.std.specs.Prelude.{◌≡◌};
ghost use Rattle.vp_lines.specs.CheckLines.{both_counts, counts_of, no_counts};

use vp_check::Checked;
use vp_stream::DecodeFault;

/// Numbers of packets.
#[derive(Clone, Copy, Debug, PartialEq, Eq)]
pub struct Counts {
    /// All packets.
    pub packets: u64,
    /// Those whose picture is shown.
    pub shown: u64,
    /// Those that are decoded and not shown.
    pub hidden: u64,
    /// Those that can't be decoded.
    pub faults: u64,
    /// Those that are read past their end.
    pub corrupt: u64,
}

impl Counts {
    /// Returns the numbers of no packets.
    pub fn none() -> Counts
        ensures { result ≡ no_counts }
    {
        Counts {
            packets: 0,
            shown: 0,
            hidden: 0,
            faults: 0,
            corrupt: 0,
        }
    }

    /// Returns the numbers of the packets of a file; of a file that can't be read, there are none.
    pub fn of(done: &Result<Checked, DecodeFault>) -> Counts
        ensures { result ≡ counts_of done.now }
    {
        match done {
            Ok(checked) => Counts {
                packets: checked.packets.len() as u64,
                shown: checked.packets.shown() as u64,
                hidden: checked.packets.hidden() as u64,
                faults: checked.packets.faults() as u64,
                corrupt: checked.packets.corrupt() as u64,
            },
            Err(_) => Counts::none(),
        }
    }

    /// Returns the sums of two.
    pub fn with(self, other: Counts) -> Counts
        ensures { result ≡ both_counts self other }
    {
        Counts {
            packets: self.packets.saturating_add(other.packets),
            shown: self.shown.saturating_add(other.shown),
            hidden: self.hidden.saturating_add(other.hidden),
            faults: self.faults.saturating_add(other.faults),
            corrupt: self.corrupt.saturating_add(other.corrupt),
        }
    }
}
