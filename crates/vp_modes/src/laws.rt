//! Laws of all macroblock headers.

ghost use Rattle.vp_modes.specs.Spelled.{CanBeWrittenAgain};

/// The modes of each macroblock that can be read can also be written.
pub fn what_is_read_can_be_written()
    ensures { CanBeWrittenAgain }
{}
