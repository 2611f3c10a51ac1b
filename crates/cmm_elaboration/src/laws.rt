//! What holds of the program that units mean. Each law is the contract of a function that does nothing. Together they make a program in range.

ghost use Rattle.cmm_elaboration.specs.Laws.{BodiesAreCounted, CountsAreKept, DataFits, DatumsAreInRange, FormsAreInRange, LabelsAreThere, LimitsAreKept, MarksAreInOrder, NamesAreShort, NamesAreThere, NamesAreWhole, ProceduresAscend, ProceduresHaveShortest, ProgramsAreInRange, RangesAreApart, ReadProgramsAreInRange, RegisterNamesAreShort, RegistersAscend, ScopesFit, SitesAreInOrder, SitesAreThere, SpansAreFew, StackdataFits, StartHasNoFormals, StatementsHaveShortest, StatementsKeepRules, TextsComeFromTokens, WaysAreThere, WidthsAreKept};
ghost use Rattle.cmm_elaboration.specs.Room.{RoomIsKept};

/// In the program of any units, the call sites of a procedure stand in its body once each, in textual order, from number 0 on.
pub fn sites_are_in_order()
    ensures { SitesAreInOrder }
{}

/// In the program of accepted units, the labels and the continuations of a procedure stand in its body once each, in textual order, from number 0 on,
/// and the continuations are as many as the procedure lists.
pub fn marks_are_in_order()
    ensures { MarksAreInOrder }
{}

/// Where each name means what is there in a program, with its width, what stands for an expression has the width that the expression is judged to
/// have, and what stands for a condition keeps the rules on widths.
pub fn widths_are_kept()
    ensures { WidthsAreKept }
{}

/// Where each name of a unit means what is there in a program, so do the names of each procedure of the unit: its variables, with their widths, its
/// stackdata labels and its continuations stand in the procedure that it means.
pub fn scopes_fit()
    ensures { ScopesFit }
{}

/// In the program of accepted units, each name of a unit means what is there: a procedure, a data label, a register with its width, or a constant that
/// is a word.
pub fn names_are_there()
    ensures { NamesAreThere }
{}

/// The program of accepted units keeps the limits on units, procedures and registers, and each procedure those on its formals, variables, tokens and
/// the parameters of its continuations, which are variables of it; items of stackdata have alignments of the language. The program starts with a
/// procedure that is there.
pub fn limits_are_kept()
    ensures { LimitsAreKept }
{}

/// In the program of accepted units, what takes the results of a call site is a variable or register with its width, its exits are continuations of
/// the procedure, and its spans ascend by token and have constants that are there.
pub fn sites_are_there()
    ensures { SitesAreThere }
{}

/// In the program of accepted units, a `goto` leads to a label that stands in its procedure, and a cut statement to continuations of it.
pub fn ways_are_there()
    ensures { WaysAreThere }
{}

/// In the program of accepted units, the stackdata of each procedure takes at most 64 KiB, with its labels where what comes behind them stands.
pub fn stackdata_fits()
    ensures { StackdataFits }
{}

/// In the program of accepted units, the name of a procedure and the kind of each of its variables have at most 255 bytes.
pub fn names_are_short()
    ensures { NamesAreShort }
{}

/// In the program of accepted units, the procedure that the program starts with has no formals.
pub fn start_has_no_formals()
    ensures { StartHasNoFormals }
{}

/// In the program of accepted units, each data label stands on a datum or behind one, and its name and the names under which it is exported have at
/// most 255 bytes.
pub fn labels_are_there()
    ensures { LabelsAreThere }
{}

/// In the program of accepted units, the names of registers have at most 255 bytes.
pub fn register_names_are_short()
    ensures { RegisterNamesAreShort }
{}

/// In the program of any units, procedures stand unit by unit: their numbers of units ascend.
pub fn procedures_ascend()
    ensures { ProceduresAscend }
{}

/// In the program of any units, registers are numbered by their names: these ascend by bytes, each once.
pub fn registers_ascend()
    ensures { RegistersAscend }
{}

/// The data of accepted units takes at most 64 MiB, with its padding.
pub fn data_fits()
    ensures { DataFits }
{}

/// In accepted units no name of a unit is broken: each typedef and each register has a width, and each constant a value.
pub fn names_are_whole()
    ensures { NamesAreWhole }
{}

/// In the program of accepted units whose texts are of bytes, each datum has an alignment of the language, and its values fill it, each with its
/// width and there in the program.
pub fn datums_are_in_range()
    ensures { DatumsAreInRange }
{}

/// In the program of accepted units, each statement keeps the rules: what it names is there, values have the widths of their places and conditions
/// those of their operands, no more than 64 values are passed, a call site is one of its kind, a checked operator is a division, and an exit is one of
/// those that there are. The ranges of a switch are left aside.
pub fn statements_keep_rules()
    ensures { StatementsKeepRules }
{}

/// In the program of accepted units, no range of a switch falls or leaves the width of the value, no two ranges meet, and there is one default at
/// most.
pub fn ranges_are_apart()
    ensures { RangesAreApart }
{}

/// In the program of accepted units that derive some tokens, each statement is in range, its count of tokens left aside.
pub fn forms_are_in_range()
    ensures { FormsAreInRange }
{}

/// In the program of accepted units that derive as many tokens as they have places for, the tokens of procedures come with two for each name under which
/// a data label is exported, and one for each label, to at most 1,000,000.
pub fn room_is_kept()
    ensures { RoomIsKept }
{}

/// In the program of accepted units that derive as many tokens as they have places for, procedures have at most a million tokens together, and datums
/// and labels are fewer than 2 to the 32.
pub fn counts_are_kept()
    ensures { CountsAreKept }
{}

/// In the program of accepted units that derive some tokens, the counts of a procedure's statements come to at most its own.
pub fn bodies_are_counted()
    ensures { BodiesAreCounted }
{}

/// In the program of accepted units that derive some tokens, each statement counts at least the tokens of its shortest text, those of the blocks inside
/// it left out.
pub fn statements_have_shortest()
    ensures { StatementsHaveShortest }
{}

/// In the program of accepted units that derive some tokens, each procedure counts at least the tokens of its shortest text, with its declarations.
pub fn procedures_have_shortest()
    ensures { ProceduresHaveShortest }
{}

/// In the program of units that derive tokens within the limits on nesting, at most 200 spans are in force at each call site.
pub fn spans_are_few()
    ensures { SpansAreFew }
{}

/// In units that derive tokens of bytes, each text that data begins with is of bytes.
pub fn texts_are_bytes()
    ensures { TextsComeFromTokens }
{}

/// The program of accepted units is in range, where the units derive as many tokens as they have places for, and their texts are of bytes.
pub fn programs_are_in_range()
    ensures { ProgramsAreInRange }
{}

/// The program of accepted units is in range, where each unit derives the tokens that some bytes make, and has a place for each of them and for its end.
pub fn read_programs_are_in_range()
    ensures { ReadProgramsAreInRange }
{}
