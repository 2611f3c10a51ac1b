//! What means a program is built and run, as contracts.

ghost use Rattle.cmm_top_laws.specs.Accepted.{AcceptedGeneratedUnitRuns, AcceptedUnitsAreBuilt, AcceptedUnitsRun, AcceptedUnitsRunWithScripts};

/// `exec` runs the units in its files where the files tell that they mean a program: it refuses none. What keeps it from that is a client's file that holds no script, a
/// read that fails, or want of memory.
pub fn accepted_units_are_run()
    ensures run { AcceptedUnitsRun }
    // The client's file keeps it from that only where it holds no script.
    ensures scripts { AcceptedUnitsRunWithScripts }
{
    cmm_front::laws::units_mean_one_thing();
    cmm_script::laws::bytes_mean_one_thing();
}

/// And `build` writes their image, unless a call on the files fails or memory runs out.
pub fn accepted_units_are_built()
    ensures { AcceptedUnitsAreBuilt }
{
    cmm_front::laws::units_mean_one_thing();
}

/// And `gen` runs the unit of a number if that means a program, unless the log fails where it is to get the counts, or memory runs out.
pub fn accepted_generated_unit_is_run()
    ensures { AcceptedGeneratedUnitRuns }
{
    cmm_front::laws::units_mean_one_thing();
}
