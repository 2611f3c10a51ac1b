//! What memory keeps: reads after writes, data and rooms, numbers as bytes, and words stored and loaded again.
ghost use Rattle.cmm_machine_laws.specs.Cells.{ComesUnwritten, LackEach, OutsideStays, ReadAfterWrite, WrittenThenGone, YoungerFirst};
ghost use Rattle.cmm_machine_laws.specs.StoredWords.{AccessStays, BytesOfNumber, BytesOfSpelled, NumberOfBytes, StoredIsLoaded, WordsElsewhereStay};

/// A byte that was written is read again at its address, every other cell stays, and a write leaves the data and the
/// rooms that lack its address.
#[tactic(auto, using(crate::proofs::Cells::read_after_write, crate::proofs::Cells::outside_stays))]
pub fn reads_after_writes()
    ensures read { ReadAfterWrite }
    ensures outside { OutsideStays }
{}

/// Data is read first, and then the youngest room that has the address: rooms that lack it may come and go.
#[tactic(auto, using(crate::proofs::Cells::younger_first, crate::proofs::Cells::lack_each))]
pub fn data_and_rooms()
    ensures first { YoungerFirst }
    ensures each { LackEach }
{}

/// A room that comes is unwritten, and what was written before rooms go is there after.
#[tactic(auto, using(crate::proofs::Cells::comes_unwritten, crate::proofs::Cells::written_then_gone))]
pub fn rooms_come_and_go()
    ensures unwritten { ComesUnwritten }
    ensures written { WrittenThenGone }
{}

/// The bytes of a number spell it, and bytes are those of the number that they spell.
#[tactic(auto, using(crate::proofs::StoredWords::laws))]
pub fn numbers_are_bytes()
    ensures bytes { BytesOfNumber }
    ensures number { NumberOfBytes }
    ensures spelled { BytesOfSpelled }
{}

/// A word that was stored is loaded again, the words elsewhere are loaded as before, and whether an address may be
/// accessed stays.
#[tactic(auto, using(crate::proofs::StoredWords::laws))]
pub fn words_are_kept()
    ensures loaded { StoredIsLoaded }
    ensures elsewhere { WordsElsewhereStay }
    ensures access { AccessStays }
{}
