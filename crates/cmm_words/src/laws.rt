//! Laws of the operators that the layers above use. Each is the contract of a function that does nothing.

ghost use Rattle.cmm_words.specs.Laws.{IsCut1, IsCut2, IsCutOfExtended, IsCutOfExtendedFirst, RotlIsTwoShifts, RotrIsTwoShifts, IsWide, IsWideOfExtended, GivesWord1, GivesWord2, LowIsWord, ExtendedIsWord, LowOfLow, LowOfWord, LowOfExtended, ExtendedOfExtended, SignedOfExtended, WordOfSigned, ShlByAnyCount, ShrlByAnyCount, ShraByAnyCount, ShlPastWidth, ShrlPastWidth, ShraPastWidth, WordPastMultiple, WordOfSum, DivFromQuot, ModFromRem, DownByPositive, DownByNegative, TowardZeroIsNearer, TowardZeroOfPositive, TowardZeroOfNegative};

use crate::operators::{Cmp, Op1, Op2};

/// Every value is a word of its width.
pub fn values_are_words()
    ensures one_operand { GivesWord1 }
    ensures two_operands { GivesWord2 }
    ensures low { LowIsWord }
    ensures extended { ExtendedIsWord }
{}

/// What a 64-bit instruction computes on words, cut to their width, is the operator at that width. Signed
/// division and the shift that copies the top bit ask for words that are sign-extended, the others for words as
/// they are.
pub fn wide_operators()
    ensures com { IsCut1 Op1.Com }
    ensures neg { IsCut1 Op1.Neg }
    ensures add { IsCut2 Op2.Add }
    ensures sub { IsCut2 Op2.Sub }
    ensures mul { IsCut2 Op2.Mul }
    ensures and { IsCut2 Op2.And }
    ensures or { IsCut2 Op2.Or }
    ensures xor { IsCut2 Op2.Xor }
    ensures shl { IsCut2 Op2.Shl }
    ensures shrl { IsCut2 Op2.Shrl }
    ensures shra { IsCutOfExtendedFirst Op2.Shra }
    ensures rotl { RotlIsTwoShifts }
    ensures rotr { RotrIsTwoShifts }
    ensures divu { IsCut2 Op2.Divu }
    ensures modu { IsCut2 Op2.Modu }
    ensures div { IsCutOfExtended Op2.Div }
    ensures modulo { IsCutOfExtended Op2.Mod }
    ensures quot { IsCutOfExtended Op2.Quot }
    ensures rem { IsCutOfExtended Op2.Rem }
{}

/// A comparison of words at 64 bits is the comparison at their width: the signed ones of words that are
/// sign-extended, the others of words as they are.
pub fn wide_comparisons()
    ensures eq { IsWide Cmp.Eq }
    ensures ne { IsWide Cmp.Ne }
    ensures lt { IsWideOfExtended Cmp.Lt }
    ensures le { IsWideOfExtended Cmp.Le }
    ensures gt { IsWideOfExtended Cmp.Gt }
    ensures ge { IsWideOfExtended Cmp.Ge }
    ensures ltu { IsWide Cmp.Ltu }
    ensures leu { IsWide Cmp.Leu }
    ensures gtu { IsWide Cmp.Gtu }
    ensures geu { IsWide Cmp.Geu }
{}

/// Conversions compose.
pub fn conversions_compose()
    ensures low_of_low { LowOfLow }
    ensures low_of_word { LowOfWord }
    ensures low_of_extended { LowOfExtended }
    ensures extended_of_extended { ExtendedOfExtended }
    ensures signed_of_extended { SignedOfExtended }
    ensures word_of_signed { WordOfSigned }
{}

/// A shift by any count is its formula with that very count.
pub fn shifts_by_any_count()
    ensures left { ShlByAnyCount }
    ensures right { ShrlByAnyCount }
    ensures right_signed { ShraByAnyCount }
    ensures left_past_width { ShlPastWidth }
    ensures right_past_width { ShrlPastWidth }
    ensures right_signed_past_width { ShraPastWidth }
{}

/// Integers as words: a multiple of 2 to the width adds nothing, and sums are those of the words.
pub fn integers_as_words()
    ensures multiple { WordPastMultiple }
    ensures sum { WordOfSum }
{}

/// A division rounded down, by one rounded toward zero, which is the one that machines have.
pub fn divisions_by_each_other()
    ensures quotient { DivFromQuot }
    ensures remainder { ModFromRem }
{}

/// The remainders of the two kinds of signed division, which tell how their quotients are rounded.
pub fn remainders_are_small()
    ensures down_by_positive { DownByPositive }
    ensures down_by_negative { DownByNegative }
    ensures toward_zero { TowardZeroIsNearer }
    ensures toward_zero_of_positive { TowardZeroOfPositive }
    ensures toward_zero_of_negative { TowardZeroOfNegative }
{}
