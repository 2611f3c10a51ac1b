//! What the grammar promises: laws about its definitions, each the contract of a function that does nothing.
ghost use Rattle.cmm_grammar.specs.ExpressionLaws.{EachIsRead, EachIsTooDeep, NoneGoesOn, OneExpression, WhatIsReadIsOne};
ghost use Rattle.cmm_grammar.specs.UnitLaws.{EachHasOneAnswer, EachThatIsTooDeepIsStopped, EachUnitIsRead, OneUnit, WhatIsOverIsTooDeep, WhatIsReadIsAUnit, WhatIsRefusedIsUnexpected};

/// No tokens have two expressions, limits on nesting left aside.
pub fn expressions_are_one()
    ensures { OneExpression }
{}

/// A reader of an expression stops at a token with which no expression goes on, or that passes a limit in each that does.
pub fn expressions_stop_there()
    ensures unexpected { NoneGoesOn }
    ensures too_deep { EachIsTooDeep }
{}

/// A reader reads each expression within the limits, and nothing else.
pub fn expressions_are_read()
    ensures complete { EachIsRead }
    ensures sound { WhatIsReadIsOne }
{}

/// No tokens have two units, limits on nesting left aside.
pub fn units_are_one()
    ensures { OneUnit }
{}

/// The reader of units reads each unit within the limits, and nothing else.
pub fn units_are_read()
    ensures complete { EachUnitIsRead }
    ensures sound { WhatIsReadIsAUnit }
{}

/// Where the reader of units stops, some unit begins with the tokens before, and none with the one that is refused; or the token is the
/// first to pass a limit in some unit. Where tokens have one of the second sort, no other answer stands for every count of turns.
pub fn units_stop_there()
    ensures unexpected { WhatIsRefusedIsUnexpected }
    ensures too_deep { WhatIsOverIsTooDeep }
    ensures stopped { EachThatIsTooDeepIsStopped }
{}

/// No tokens have two answers: a unit within the limits, a token where no unit goes on, or one that is the first to pass a limit in some
/// unit. Nor do they have two tokens of one sort.
pub fn units_have_one_answer()
    ensures { EachHasOneAnswer }
{}
