//! What is proved of the table and the machine: laws about definitions, each the contract of a function that does nothing.
ghost use Rattle.rv_table.specs.Laws.{DecodingIsExact, WordsFit, CodeHasLength, CodeStands, EffectsAreDone, RegistersAreKept, RowsAreBounded, RowsAreDone, RunsAreSound, SetsAreDone, StepsJoin, StopsEndRuns, StoresAreRead, StraightPiecesRun};
ghost use Rattle.rv_table.specs.Machine.{MemoryMap, State};

/// Decoding gives an instruction exactly for its word, and encoding gives words of 32 bits.
pub fn words_and_instructions()
    ensures exact { DecodingIsExact }
    ensures fit { WordsFit }
{}

/// The code of a list of instructions has each of them at its place, whatever bytes are around it.
pub fn code_stands()
    ensures stands { CodeStands }
    ensures length { CodeHasLength }
{}

/// Writing a register changes that one alone.
pub fn registers_are_kept()
    ensures { RegistersAreKept }
{}

/// What stands at pc is done, each effect comes to its next state, runs join, and a straight piece is run as its rows say.
pub fn runs()
    ensures done { RowsAreDone }
    ensures set { SetsAreDone }
    ensures effects { (m : MemoryMap) (s : State) → EffectsAreDone m s }
    ensures join { StepsJoin }
    ensures straight { StraightPiecesRun }
{}

/// The numbers of every row are in range, and so runs keep registers and memory in theirs.
pub fn numbers_stay_in_range()
    ensures rows { RowsAreBounded }
    ensures runs { RunsAreSound }
{}

/// A load gives what a store left there, and every byte outside of a store is as it was.
pub fn stores_are_read()
    ensures { StoresAreRead }
{}

/// Requests and traps stop a run and change nothing.
pub fn stops_end_runs()
    ensures { StopsEndRuns }
{}
