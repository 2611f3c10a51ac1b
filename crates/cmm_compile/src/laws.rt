//! The theorems of the passes, composed. Each law is the contract of a function that does nothing.

ghost use Rattle.cmm_elaboration.specs.Laws.{ProceduresAscend};
ghost use Rattle.cmm_data.specs.Laws.{InRangeCanBeLaidOut};
ghost use Rattle.cmm_hoisted.specs.Laws.{HoistedFlowsAreBounded};
ghost use Rattle.cmm_link.specs.Laws.{PlacesHaveFrames};
ghost use Rattle.cmm_compile.specs.inside.Laws.{ImagesAgreeWithUnits, PlacesKnowLive, ProgramsAreCovered, ProgramsAreShort};

/// The code of the nodes of a located program has at most 32 instructions for each of their tokens.
#[tactic(auto, using(crate::proofs::Covering::programs_are_covered))]
fn programs_are_covered()
    ensures { ProgramsAreCovered }
{
    cmm_hoisted::laws::hoisted_flows_are_graphs();
    cmm_hoisted::laws::hoisted_flows_are_covered();
    cmm_allocate::laws::flows_can_be_placed();
    cmm_allocate::laws::entries_are_short();
    cmm_emit::laws::nodes_are_short();
}

/// The code of the nodes of each procedure of a located program, with one instruction behind it, is at most 64 instructions for each token of the
/// procedure.
#[tactic(auto, using(crate::proofs::Covering::programs_are_short))]
fn programs_are_short()
    ensures { ProgramsAreShort }
{
    cmm_hoisted::laws::hoisted_flows_are_graphs();
    cmm_hoisted::laws::hoisted_flows_are_covered();
    cmm_allocate::laws::flows_can_be_placed();
    cmm_allocate::laws::entries_are_short();
    cmm_emit::laws::graphs_are_short();
}

/// The sets that places keep have just the variables that are live at the call sites of their procedures.
#[tactic(auto, using(crate::proofs::Knowing::places_know_live))]
fn places_know_live()
    ensures { PlacesKnowLive }
{
    cmm_hoisted::laws::hoisted_flows_keep_liveness();
}

/// An image that is made of a program agrees with it, whatever its client does.
fn images_agree_with_units()
    ensures { ImagesAgreeWithUnits }
{
    cmm_data::laws::programs_in_range();
    cmm_data::laws::data_reaches_its_end();
    cmm_allocate::laws::rows_are_placed();
    cmm_allocate::laws::places_are_compiled();
    cmm_allocate::laws::located_runs_follow_programs();
    cmm_image_machine::laws::images_keep_frames();
    cmm_link::laws::images_have_rows();
    cmm_client_laws::laws::rows_are_tables();
    cmm_yield_laws::laws::images_agree_with_clients();
}

/// Each pass answers what the passes behind it ask for, and the image of the last agrees with the program of the first.
pub(crate) fn passes_fit()
    ensures ascend { ProceduresAscend }
    ensures data { InRangeCanBeLaidOut }
    ensures bounded { HoistedFlowsAreBounded }
    ensures frames { PlacesHaveFrames }
    ensures covered { ProgramsAreCovered }
    ensures short { ProgramsAreShort }
    ensures live { PlacesKnowLive }
    ensures agree { ImagesAgreeWithUnits }
{
    cmm_elaboration::laws::procedures_ascend();
    cmm_data::laws::programs_in_range();
    cmm_hoisted::laws::hoisted_flows_are_graphs();
    cmm_link::laws::places_have_frames();
    programs_are_covered();
    programs_are_short();
    places_know_live();
    images_agree_with_units();
}
