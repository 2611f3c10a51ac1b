//! What is proved of the code of nodes, as contracts of functions that do nothing.
ghost use Rattle.cmm_select.specs.Laws.{CodeIsShort, SwitchesLead};

/// How many instructions bring operands and assign what an operator gives on them.
pub fn code_is_short()
    ensures { CodeIsShort }
{}

/// Where a switch goes is where its node leads.
pub fn switches_lead()
    ensures { SwitchesLead }
{}
