//! What changes of the machine represent, as contracts.

ghost use Rattle.cmm_emit_laws.specs.StateLaws as laws;

/// A place that holds a number has it, and instructions reach it.
pub fn places_are_shown()
    ensures read { laws.PlacesAreRead }
    ensures reached { laws.PlacesAreReached }
{}

/// Numbers that are put into places are shown to be held there.
pub fn puts_are_shown()
    ensures { laws.PutsAreRepresented }
{}

/// A global register is read and written at its word of the region below the stack.
pub fn registers_are_shown()
    ensures read { laws.RegistersAreRead }
    ensures put { laws.RegisterPutsAreRepresented }
{}

/// Data and stackdata are loaded and stored where their cells stand; where these do, an aligned access does not trap.
pub fn cells_are_shown()
    ensures reached { laws.CellsAreReached }
    ensures loads { laws.LoadsAreRepresented }
    ensures stores { laws.StoresAreRepresented }
{}

/// Bytes of any count are written where data lies, as a client changes data.
pub fn data_is_written()
    ensures { laws.DataIsWritten }
{}

/// The frame of an activation comes with its fixed words, and goes with its saved registers restored.
pub fn frames_are_shown()
    ensures come { laws.FramesComeRepresented }
    ensures go { laws.FramesGoRepresented }
{}

/// Values go out to where they travel, at a call, a return, a tail call or a cut; a call sets the return address, and a cut moves to an older
/// frame.
pub fn transfers_are_shown()
    ensures values { laws.ValuesAreGiven }
    ensures calls { laws.CallsAreRepresented }
    ensures cuts { laws.CutsAreRepresented }
{}

/// A run begins with a state that represents the first one.
pub fn starts_are_shown()
    ensures { laws.StartsAreRepresented }
{}
