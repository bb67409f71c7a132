//! What a line of the access log looks like, as the contract of a function that does nothing.

ghost use Rattle.vp_mio.specs.Lines.{PlainLinesArePrintable};

/// The last byte of a line is a line feed, and each other byte is from 32 to 126.
pub fn plain_lines_are_printable()
    ensures { PlainLinesArePrintable }
{}
