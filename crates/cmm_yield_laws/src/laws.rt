//! What holds of the finished code of a program with yields, as contracts.
ghost use Rattle.cmm_yield_laws.specs.Laws.{FittingRunsFollow, ImagesAgreeWithClients, ImagesSimulateYields, LinesAreThere};

/// Where code is that of a program with its yields, and tables tell of it, the image simulates the located machine with its client.
pub fn images_simulate_yields()
    ensures { ImagesSimulateYields }
{
    cmm_select::laws::switches_lead();
    cmm_machine_laws::runs::what_is_seen_lasts();
}

/// What follows the C-- machine over locations does so where the values of each walk have to fit their widths.
pub fn fitting_runs_follow()
    ensures { FittingRunsFollow }
{
    cmm_machine_laws::values::every_state_is_sound();
}

/// Where the located machine follows the C-- machine, the image agrees with the C-- machine, with all that its client does; and where that machine waits, the
/// line of the yield is in the image's log in time.
pub fn images_agree_with_clients()
    ensures agrees { ImagesAgreeWithClients }
    ensures lines { LinesAreThere }
{
    cmm_select::laws::switches_lead();
    cmm_machine_laws::values::every_state_is_sound();
    cmm_machine_laws::runs::what_is_seen_lasts();
}
