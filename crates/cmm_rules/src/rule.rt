//! The rules.

ghost use Rattle.std.specs.Prelude.{◌≡◌, Some, IfSome};
ghost use Rattle.cmm_rules.specs.Rules.{rule_number, rule_text, phase_of, rule_of, shown};

use std::fmt;

/// A rule, with the place that a message names where it is broken, as `LINE:COLUMN` of a unit, as the offset of a byte
/// of an image, a snapshot or an ELF file, or as a line of a script. A command
/// that a client's rule refuses has no place.
#[derive(Clone, Copy, Debug)]
pub enum Rule {
    /// 1. A byte begins no token: at the byte.
    BadByte,
    /// 2. A block comment is not closed: at its `/*`.
    OpenComment,
    /// 3. A text or a character is not closed on its line or has an unknown escape, or a character is not exactly one: at its
    /// opening quote.
    OpenText,
    /// 4. An integer is not below 2^64, has no digit after `0x`, has a digit 8 or 9 after a leading 0, or a letter, `_`, `$` or `@`
    /// follows it directly: at its first digit.
    BadNumber,
    /// 5. A unit has more than 1,048,576 bytes: at 1:1.
    UnitTooLong,
    /// 10. No unit begins with the tokens up to and including this one, or the tokens up to the end of the unit are none: at the
    /// token, or at the end of the unit.
    Syntax,
    /// 11. More than 200 brackets are open, an `else if` counting as one until its chain ends, or an outermost expression has more than
    /// 500 operators: at the token that opens the 201st, or is the 501st.
    TooDeep,
    /// 20. A name is declared again in its space, or is the name of a host procedure and no import of it: at the later name.
    DeclaredTwice,
    /// 21. A name in an expression or of a callee is declared nowhere, a name that stands as a type is no typedef, an exported name is no
    /// procedure and no data label of its unit, or a name to the left of `=` is not declared: at the name.
    Undeclared,
    /// 22. A name to the left of `=` is no variable and no register: at the name.
    NotAVariable,
    /// 23. Two widths that have to be the same differ, or an extension is to a lesser width, or a `%lobits` to a greater one: at the first
    /// token of the later expression, or at the type.
    WidthsDiffer,
    /// 24. A condition stands where bits are wanted, or bits where a condition is: at the first token of the expression.
    ConditionOrBitsWanted,
    /// 25. A literal does not fit its type, or where it has none the width that is wanted: at the literal.
    LiteralDoesNotFit,
    /// 26. There is no operator of this name, or it has another count of operands: at the operator.
    UnknownOperator,
    /// 27. A constant of compile time or of link time is wanted, and the expression is none or divides by 0: at its first token.
    NotAConstant,
    /// 28. An assignment has more or fewer values than places, a datum with a size has another count of values or of bytes of text, or
    /// `[]` has no initialiser: at the first token of the statement or the datum.
    CountsDiffer,
    /// 29. A `goto` names no label of its procedure, or an annotation no continuation of it: at the name.
    NoSuchLabel,
    /// 30. A parameter of a continuation is no variable of its procedure: at the name.
    NotALocalVariable,
    /// 31. Two arms of a switch overlap, an arm leaves the range of the switch, a range falls, or a second `default` stands: at the later
    /// range, or at the `default`.
    ArmsOverlap,
    /// 32. In `return <i/n>` i is above n, or n is above 64: at the `<`.
    BadReturnIndex,
    /// 33. A list has more than 64 formals, actuals, results or parameters: at its 65th.
    TooManyValues,
    /// 34. No unit exports the link name of an import, and it is the name of no host procedure: at the name in the import.
    NotExported,
    /// 35. A link name is exported a second time: at the name in the later export.
    ExportedTwice,
    /// 36. No unit exports a procedure without formals as `main`: at 1:1 of the first unit. It is tested after all other rules but the
    /// sums over all units of rule 40.
    NoMain,
    /// 37. A target property is none of `memsize 8`, `byteorder little`, `pointersize 64` and `wordsize 64`: at the word of the property.
    OtherTarget,
    /// 38. A foreign call has another text than `"C"`, a callee that is no host procedure, other counts or widths than that has, or an
    /// annotation, or the name of a host procedure is used otherwise: at the first token of the callee or the name.
    BadHostCall,
    /// 39. A constant or a typedef depends on itself: at its name.
    Cycle,
    /// 40. A limit on a unit, a procedure, a name, or the sums over all units is passed, or an alignment is not 1, 2, 4, 8 or 16: at the
    /// token that passes it, or for a sum over all units at 1:1 of the first unit. The sums are tested last.
    Limit,
    /// 50. The bytes do not begin with `CMMI`: at 0.
    NotAnImage,
    /// 51. The version of an image is neither 1 nor 2, or that of an image to be migrated is 2: at its field.
    OtherImageVersion,
    /// 52. The bytes of an image end inside a field: at the field.
    ImageIsCut,
    /// 53. A field of an image is none of the values that it may have, or out of order: at the field.
    BadImageField,
    /// 54. An address, an offset or a size in an image lies outside what it is of: at the field.
    ImageOutOfRange,
    /// 55. Bytes follow the last record of an image: at the first of them.
    BytesAfterImage,
    /// 56. An image has more than 536,870,912 bytes: at the first byte too many.
    ImageTooLong,
    /// 57. A variable is live at two sites of its procedure in different places, so that the image has no spelling in version 2: at the
    /// first field of a place that differs from an earlier one.
    TwoPlaces,
    /// 60. There is no such activation.
    NoActivation,
    /// 61. The procedure has no variable of this number.
    NoVariable,
    /// 62. The variable is dead at the site at which the activation is suspended.
    DeadVariable,
    /// 63. A value does not fit the width that takes it.
    DoesNotFit,
    /// 64. There is no such exit, or it is the normal exit of a site that never returns.
    NoExit,
    /// 65. The count of values is another than the exit has.
    OtherCount,
    /// 66. The variable is declared invariant.
    InvariantVariable,
    /// 67. The value is no continuation to which the site of a suspended activation also cuts.
    NoCut,
    /// 68. There is no such exported data label, the 8 bytes do not all lie in data, or their address is no multiple of 8.
    NoPlace,
    /// 69. The yield has no value of this number.
    NoYieldedValue,
    /// 70. The bytes of a snapshot end inside a field: at the field.
    SnapshotIsCut,
    /// 71. A snapshot has the header of another image: at that, which is 8.
    OtherImageHeader,
    /// 72. The size of the stack in a snapshot is no multiple of 16 or above 268,435,456, or its register 0 is not 0: at the field.
    BadSnapshotField,
    /// 73. A snapshot has more than 536,870,912 bytes: at the first byte too many.
    SnapshotTooLong,
    /// 74. Bytes follow the region in a snapshot: at the first of them.
    BytesAfterSnapshot,
    /// 75. The bytes do not begin with `CMMS` and version 1: at 0, or at the version.
    NotASnapshot,
    /// 80. A line of a script is of none of the forms, or a command stands before the first block: at the line.
    UnknownLine,
    /// 81. A block of a script has the code of an earlier one, or is a second `other`: at its first line.
    RepeatedBlock,
    /// 82. A script has more than 65,536 bytes: at line 1.
    ScriptTooLong,
    /// 110. The file does not begin as an ELF64 executable file of RISC-V: at the first field of its first 24 bytes with another value.
    NotAnElfFile,
    /// 111. The bytes of an ELF file end inside a field: at the field.
    ElfFileIsCut,
    /// 112. A field of an ELF file behind its first 24 bytes is none of the values that it may have: at the field.
    BadElfField,
    /// 113. A byte before the code or between code and data is not 0, or bytes follow the data: at the first byte of that padding, or at the
    /// first byte that follows.
    BytesOutsideSegments,
    /// 114. An ELF file has more than 536,879,104 bytes: at the first byte too many.
    ElfFileTooLong,
}

/// When a rule is tested: of a unit the first three phases one after another, each for all units before the next.
#[derive(Clone, Copy, Debug)]
pub enum Phase {
    /// The form of tokens: rules 1 to 5.
    Lexical,
    /// The grammar: rules 10 and 11.
    Syntax,
    /// Names, widths, constants and limits: rules 20 to 40.
    Static,
    /// The form of images: rules 50 to 57.
    Image,
    /// The form of snapshots: rules 70 to 75.
    Snapshot,
    /// The form of scripts: rules 80 to 82.
    Script,
    /// The form of ELF files: rules 110 to 114.
    Elf,
    /// What a command of a client asks: rules 60 to 69.
    Client,
}

/// Every rule, in the order of the numbers.
const RULES: [Rule; 60] = [
    Rule::BadByte,
    Rule::OpenComment,
    Rule::OpenText,
    Rule::BadNumber,
    Rule::UnitTooLong,
    Rule::Syntax,
    Rule::TooDeep,
    Rule::DeclaredTwice,
    Rule::Undeclared,
    Rule::NotAVariable,
    Rule::WidthsDiffer,
    Rule::ConditionOrBitsWanted,
    Rule::LiteralDoesNotFit,
    Rule::UnknownOperator,
    Rule::NotAConstant,
    Rule::CountsDiffer,
    Rule::NoSuchLabel,
    Rule::NotALocalVariable,
    Rule::ArmsOverlap,
    Rule::BadReturnIndex,
    Rule::TooManyValues,
    Rule::NotExported,
    Rule::ExportedTwice,
    Rule::NoMain,
    Rule::OtherTarget,
    Rule::BadHostCall,
    Rule::Cycle,
    Rule::Limit,
    Rule::NotAnImage,
    Rule::OtherImageVersion,
    Rule::ImageIsCut,
    Rule::BadImageField,
    Rule::ImageOutOfRange,
    Rule::BytesAfterImage,
    Rule::ImageTooLong,
    Rule::TwoPlaces,
    Rule::NoActivation,
    Rule::NoVariable,
    Rule::DeadVariable,
    Rule::DoesNotFit,
    Rule::NoExit,
    Rule::OtherCount,
    Rule::InvariantVariable,
    Rule::NoCut,
    Rule::NoPlace,
    Rule::NoYieldedValue,
    Rule::SnapshotIsCut,
    Rule::OtherImageHeader,
    Rule::BadSnapshotField,
    Rule::SnapshotTooLong,
    Rule::BytesAfterSnapshot,
    Rule::NotASnapshot,
    Rule::UnknownLine,
    Rule::RepeatedBlock,
    Rule::ScriptTooLong,
    Rule::NotAnElfFile,
    Rule::ElfFileIsCut,
    Rule::BadElfField,
    Rule::BytesOutsideSegments,
    Rule::ElfFileTooLong,
];

impl Rule {
    /// The number that users see.
    pub fn number(self) -> u8
        ensures { result ≡ rule_number self }
    {
        match self {
            Rule::BadByte => 1,
            Rule::OpenComment => 2,
            Rule::OpenText => 3,
            Rule::BadNumber => 4,
            Rule::UnitTooLong => 5,
            Rule::Syntax => 10,
            Rule::TooDeep => 11,
            Rule::DeclaredTwice => 20,
            Rule::Undeclared => 21,
            Rule::NotAVariable => 22,
            Rule::WidthsDiffer => 23,
            Rule::ConditionOrBitsWanted => 24,
            Rule::LiteralDoesNotFit => 25,
            Rule::UnknownOperator => 26,
            Rule::NotAConstant => 27,
            Rule::CountsDiffer => 28,
            Rule::NoSuchLabel => 29,
            Rule::NotALocalVariable => 30,
            Rule::ArmsOverlap => 31,
            Rule::BadReturnIndex => 32,
            Rule::TooManyValues => 33,
            Rule::NotExported => 34,
            Rule::ExportedTwice => 35,
            Rule::NoMain => 36,
            Rule::OtherTarget => 37,
            Rule::BadHostCall => 38,
            Rule::Cycle => 39,
            Rule::Limit => 40,
            Rule::NotAnImage => 50,
            Rule::OtherImageVersion => 51,
            Rule::ImageIsCut => 52,
            Rule::BadImageField => 53,
            Rule::ImageOutOfRange => 54,
            Rule::BytesAfterImage => 55,
            Rule::ImageTooLong => 56,
            Rule::TwoPlaces => 57,
            Rule::NoActivation => 60,
            Rule::NoVariable => 61,
            Rule::DeadVariable => 62,
            Rule::DoesNotFit => 63,
            Rule::NoExit => 64,
            Rule::OtherCount => 65,
            Rule::InvariantVariable => 66,
            Rule::NoCut => 67,
            Rule::NoPlace => 68,
            Rule::NoYieldedValue => 69,
            Rule::SnapshotIsCut => 70,
            Rule::OtherImageHeader => 71,
            Rule::BadSnapshotField => 72,
            Rule::SnapshotTooLong => 73,
            Rule::BytesAfterSnapshot => 74,
            Rule::NotASnapshot => 75,
            Rule::UnknownLine => 80,
            Rule::RepeatedBlock => 81,
            Rule::ScriptTooLong => 82,
            Rule::NotAnElfFile => 110,
            Rule::ElfFileIsCut => 111,
            Rule::BadElfField => 112,
            Rule::BytesOutsideSegments => 113,
            Rule::ElfFileTooLong => 114,
        }
    }

    /// What is wrong, in a few words.
    pub fn text(self) -> &'static str
        ensures { result.now ≡ rule_text self }
    {
        match self {
            Rule::BadByte => "bad byte",
            Rule::OpenComment => "open comment",
            Rule::OpenText => "open text",
            Rule::BadNumber => "bad number",
            Rule::UnitTooLong => "unit too long",
            Rule::Syntax => "syntax",
            Rule::TooDeep => "too deep",
            Rule::DeclaredTwice => "declared twice",
            Rule::Undeclared => "undeclared",
            Rule::NotAVariable => "not a variable",
            Rule::WidthsDiffer => "widths differ",
            Rule::ConditionOrBitsWanted => "condition or bits wanted",
            Rule::LiteralDoesNotFit => "literal does not fit",
            Rule::UnknownOperator => "unknown operator",
            Rule::NotAConstant => "not a constant",
            Rule::CountsDiffer => "counts differ",
            Rule::NoSuchLabel => "no such label",
            Rule::NotALocalVariable => "not a local variable",
            Rule::ArmsOverlap => "arms overlap or leave the range",
            Rule::BadReturnIndex => "bad return index",
            Rule::TooManyValues => "too many values",
            Rule::NotExported => "not exported",
            Rule::ExportedTwice => "exported twice",
            Rule::NoMain => "no main",
            Rule::OtherTarget => "other target",
            Rule::BadHostCall => "bad host call",
            Rule::Cycle => "cycle",
            Rule::Limit => "limit",
            Rule::NotAnImage => "not an image",
            Rule::OtherImageVersion => "other image version",
            Rule::ImageIsCut => "image is cut",
            Rule::BadImageField => "bad image field",
            Rule::ImageOutOfRange => "image out of range",
            Rule::BytesAfterImage => "bytes after image",
            Rule::ImageTooLong => "image too long",
            Rule::TwoPlaces => "two places",
            Rule::NoActivation => "no activation",
            Rule::NoVariable => "no variable",
            Rule::DeadVariable => "dead variable",
            Rule::DoesNotFit => "does not fit",
            Rule::NoExit => "no exit",
            Rule::OtherCount => "other count",
            Rule::InvariantVariable => "invariant variable",
            Rule::NoCut => "no cut",
            Rule::NoPlace => "no place",
            Rule::NoYieldedValue => "no yielded value",
            Rule::SnapshotIsCut => "snapshot is cut",
            Rule::OtherImageHeader => "other image header",
            Rule::BadSnapshotField => "bad snapshot field",
            Rule::SnapshotTooLong => "snapshot too long",
            Rule::BytesAfterSnapshot => "bytes after snapshot",
            Rule::NotASnapshot => "not a snapshot",
            Rule::UnknownLine => "unknown line",
            Rule::RepeatedBlock => "repeated block",
            Rule::ScriptTooLong => "script too long",
            Rule::NotAnElfFile => "not an elf file",
            Rule::ElfFileIsCut => "elf file is cut",
            Rule::BadElfField => "bad elf field",
            Rule::BytesOutsideSegments => "bytes outside segments",
            Rule::ElfFileTooLong => "elf file too long",
        }
    }

    /// When it is tested.
    pub fn phase(self) -> Phase
        ensures { result ≡ phase_of self }
    {
        match self {
            Rule::BadByte
            | Rule::OpenComment
            | Rule::OpenText
            | Rule::BadNumber
            | Rule::UnitTooLong => Phase::Lexical,
            Rule::Syntax | Rule::TooDeep => Phase::Syntax,
            Rule::DeclaredTwice
            | Rule::Undeclared
            | Rule::NotAVariable
            | Rule::WidthsDiffer
            | Rule::ConditionOrBitsWanted
            | Rule::LiteralDoesNotFit
            | Rule::UnknownOperator
            | Rule::NotAConstant
            | Rule::CountsDiffer
            | Rule::NoSuchLabel
            | Rule::NotALocalVariable
            | Rule::ArmsOverlap
            | Rule::BadReturnIndex
            | Rule::TooManyValues
            | Rule::NotExported
            | Rule::ExportedTwice
            | Rule::NoMain
            | Rule::OtherTarget
            | Rule::BadHostCall
            | Rule::Cycle
            | Rule::Limit => Phase::Static,
            Rule::NotAnImage
            | Rule::OtherImageVersion
            | Rule::ImageIsCut
            | Rule::BadImageField
            | Rule::ImageOutOfRange
            | Rule::BytesAfterImage
            | Rule::ImageTooLong
            | Rule::TwoPlaces => Phase::Image,
            Rule::SnapshotIsCut
            | Rule::OtherImageHeader
            | Rule::BadSnapshotField
            | Rule::SnapshotTooLong
            | Rule::BytesAfterSnapshot
            | Rule::NotASnapshot => Phase::Snapshot,
            Rule::UnknownLine | Rule::RepeatedBlock | Rule::ScriptTooLong => Phase::Script,
            Rule::NotAnElfFile
            | Rule::ElfFileIsCut
            | Rule::BadElfField
            | Rule::BytesOutsideSegments
            | Rule::ElfFileTooLong => Phase::Elf,
            Rule::NoActivation
            | Rule::NoVariable
            | Rule::DeadVariable
            | Rule::DoesNotFit
            | Rule::NoExit
            | Rule::OtherCount
            | Rule::InvariantVariable
            | Rule::NoCut
            | Rule::NoPlace
            | Rule::NoYieldedValue => Phase::Client,
        }
    }

    /// The rule of a number, if there is one.
    #[tactic(auto, unfolding(crate::specs::Rules::rules))]
    pub fn of_number(number: u8) -> Option<Rule>
        ensures value { result ≡ rule_of number }
        ensures some { IfSome result (λ rule. rule_number rule ≡ number) }
    {
        RULES.iter().copied().find(|rule| rule.number() == number)
    }
}

/// A rule prints as its number and its text.
impl fmt::Display for Rule {
    ghost output = { λ rule. Some (shown rule) };

    fn fmt<W: fmt::Write>(&self, f: &mut fmt::Formatter<W>) -> fmt::Result {
        let number = self.number();
        let text = self.text();
        write!(f, "{number} {text}")
    }
}
