//! Laws of ELF files: the contract of a function that does nothing.

ghost use Rattle.cmm_elf.specs.Laws.{EachMeansOneThing, FilesAreOne, NoFileHasAFault};

/// Bytes are one ELF file of an image, or they have a first fault, and never both.
pub fn bytes_mean_one_file()
    ensures each { EachMeansOneThing }
    ensures one { FilesAreOne }
    ensures never_both { NoFileHasAFault }
{}
