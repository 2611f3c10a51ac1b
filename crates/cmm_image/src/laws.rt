//! Laws of the format: the contract of a function that does nothing.

ghost use Rattle.cmm_image.specs.Laws.{DifferencesAreLive, EachMeansOneThing, FirstDifferencesAreOne, FirstKeepsSecond, ImagesAreOne, NoBytesAreBoth, NoImageHasAFault, OnePlaceOrDifference, OneSpellingAVersion, PlacesStandThere, RowsAreBounded, SecondHasOnePlace, SecondIsShort, SecondKeepsFirst, SecondTablesAreRead, SitesKeepFrames};

/// Bytes are one image, or they have a first fault, and never both.
pub fn bytes_mean_one_thing()
    ensures each { EachMeansOneThing }
    ensures one { ImagesAreOne }
    ensures never_both { NoImageHasAFault }
{}

/// Each site of an image keeps inside the frame of its procedure.
pub fn sites_keep_frames()
    ensures { SitesKeepFrames }
{}

/// The rows of an image are bounded: registers that are saved, variables, stackdata labels, parameters, results, alternate exits, return
/// addresses.
pub fn rows_are_bounded()
    ensures { RowsAreBounded }
{}

/// Version 2's tables of procedures and sites have one spelling each, and are what stands at the front of it.
pub fn second_tables_are_read()
    ensures { SecondTablesAreRead }
{}

/// What version 2's tables of procedures and sites keep, those of version 1 keep.
pub fn second_tables_keep_the_first()
    ensures { SecondKeepsFirst }
{}

/// What version 1's tables of procedures and sites keep, those of version 2 keep exactly where each variable has one place in its whole
/// procedure.
pub fn one_place_makes_second_tables()
    ensures kept { FirstKeepsSecond }
    ensures only { SecondHasOnePlace }
{}

/// Version 2 spells the tables in hardly more bytes than version 1.
pub fn second_tables_are_short()
    ensures { SecondIsShort }
{}

/// An image has one spelling a version, and no bytes are of both.
pub fn versions_are_apart()
    ensures one { OneSpellingAVersion }
    ensures never_both { NoBytesAreBoth }
{}

/// Where not each variable has one place, there is one first site and variable with another place than before, and that place stands at
/// its offset in the bytes of version 1.
pub fn first_differences_are_told()
    ensures told { OnePlaceOrDifference }
    ensures one { FirstDifferencesAreOne }
    ensures live { DifferencesAreLive }
    ensures there { PlacesStandThere }
{}
