//! Laws of sets, by membership. Each is the contract of a function that does nothing.

ghost use Rattle.cmm_bitset.specs.Laws.{EmptyHasNone, SetIsHad, OthersStay, UnionHasEither, SettledHasBoth, SameByMembers, CountIsBounded, MembersAreHad, MembersAscend};

/// What each call does to membership, and that sets are the same where their members are.
pub fn sets_are_their_members()
    ensures empty { EmptyHasNone }
    ensures set { SetIsHad }
    ensures others { OthersStay }
    ensures union { UnionHasEither }
    ensures settled { SettledHasBoth }
    ensures same { SameByMembers }
{}

/// What the list of members has, and how long it can be: so often can a set grow.
pub fn members_are_listed()
    ensures exact { MembersAreHad }
    ensures ascending { MembersAscend }
    ensures bounded { CountIsBounded }
{}
