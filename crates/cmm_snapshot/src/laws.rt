//! Laws of snapshots: the contract of a function that does nothing.

ghost use Rattle.cmm_snapshot.specs.Laws.{EachMeansOneThing, NoSnapshotHasAFault, SnapshotsAreOne, SnapshotsKeepStates};

/// Bytes are one snapshot of a run of an image, or they have a first fault, and never both.
pub fn bytes_mean_one_snapshot()
    ensures each { EachMeansOneThing }
    ensures one { SnapshotsAreOne }
    ensures never_both { NoSnapshotHasAFault }
{}

/// A snapshot keeps the state of a machine and its region: registers and memories of one snapshot are one state.
pub fn snapshots_keep_states()
    ensures { SnapshotsKeepStates }
{}
