//! `poke`, and where data is that may be written.
ghost use Rattle.std.specs.Prelude.{◌≡◌, ◌+◌, ◌≤◌, ◌%◌, ℕ, OnErr, IfOk};
ghost use Rattle.std.specs.Option.{option_map, ok_or};
ghost use Rattle.rv_table.specs.Machine.{data_base};
ghost use Rattle.rv_table.specs.declared.registers.Regs.{Regs};
ghost use Rattle.rv_memory.specs.Regions.{map_of, region_of};
ghost use Rattle.rv_memory.specs.States.{state_of};
ghost use Rattle.cmm_program.specs.Asking.{Cursor};
ghost use Rattle.cmm_image_machine.specs.Changes.{label_named, may_poke as may_be_poked};
ghost use Rattle.cmm_image_machine.specs.Frames.{Element};
ghost use Rattle.cmm_resume.specs.Answering.{Answers};
ghost use Rattle.cmm_resume.specs.Finding.{label_place, poking_in};

use crate::refusal::Refusal;
use cmm_image::Image;
use cmm_rules::Rule;
use rv_memory::Memory;
use rv_table::memory_map::DATA_BASE;

/// Writes the 8 bytes of a value at an exported data label, `offset` bytes further on.
pub fn poke(i: &Image, m: &mut Memory, label: &[u8], offset: u64, v: u64) -> Result<(), Refusal>
    ensures pokes { (r : Regs) (cursor : Cursor Element) →
        Answers (poking_in (map_of m.old).data_length i.now cursor (state_of r m.old) label.now offset v) (state_of r m.old) (state_of r m.new) result }
    ensures map { map_of m.new ≡ map_of m.old }
    ensures region { region_of m.new ≡ region_of m.old }
    ensures unchanged { OnErr result (m.new ≡ m.old) }
{
    match place_to_poke(i, m, label, offset) {
        Ok(address) => {
            m.set_data_word(address, v);
            Ok(())
        }
        Err(rule) => Err(Refusal::ByRule(rule)),
    }
}

/// The address of 8 bytes of data, `offset` bytes behind an exported label, that may be written. The error, `NoPlace`, is that no label has the
/// name, the bytes do not all lie in data, or the address is no multiple of 8.
pub fn place_to_poke(i: &Image, m: &Memory, label: &[u8], offset: u64) -> Result<u64, Rule>
    ensures place { result ≡ ok_or (label_place (map_of m.now).data_length i.now label.now offset 8) Rule.NoPlace }
    ensures fits { IfOk result (λ address. (address % 8 ≡ 0) × (data_base ≤ address) × (address + 8 ≤ data_base + (map_of m.now).data_length)) }
{
    match word_behind(i, m, label, offset) {
        Some(address) => Ok(address),
        None => Err(Rule::NoPlace),
    }
}

/// The address of 8 bytes behind an exported label, if they may be written.
fn word_behind(i: &Image, m: &Memory, label: &[u8], offset: u64) -> Option<u64>
    ensures { result ≡ label_place (map_of m.now).data_length i.now label.now offset 8 }
{
    let end = m.data_end();
    let label = label_address(i, label)?;
    let address = label.checked_add(offset)?;
    if may_poke(address, end) {
        Some(address)
    } else {
        None
    }
}

/// The address of the exported data label of a name.
fn label_address(i: &Image, name: &[u8]) -> Option<u64>
    ensures { result ≡ option_map (λ l. l.address) (label_named i.now name.now) }
{
    for row in i.parts().labels.as_slice() {
        if name == row.name.as_bytes() {
            return Some(row.address);
        }
    }
    None
}

/// Whether 8 bytes may be written at an address, in data that ends here.
fn may_poke(address: u64, end: u64) -> bool
    ensures { (count : ℕ) → end ≡ data_base + count → result ≡ may_be_poked count address 8 }
{
    address % 8 == 0 && DATA_BASE <= address && address <= end && 8 <= end - address
}
