//! Laws of the definitions. These functions do nothing: their contracts are the laws.
ghost use Rattle.vrps.specs.Change.{ChangeLeads, ChangesMerge};
ghost use Rattle.vrps.specs.Origin.{CoveringMembers, OneState, StateByCovering, StateByMembers};
ghost use Rattle.vrps.specs.Store.{IsBeforeNewer, KeptIsItself, NamesItself, PublishedIsInstance, SameExactly};
ghost use Rattle.vrps.specs.VrpSet.{ListedAgain, SameMembers};

/// Law: the set made of the list of a set's members is that same set.
pub fn listed_again()
    ensures { ListedAgain }
{}

/// Law: two sets that have the same VRPs are equal.
pub fn same_members()
    ensures { SameMembers }
{}

/// Law: the change between two sets, applied to the first, gives the second (RFC 8210 section 8.2).
pub fn change_leads()
    ensures { ChangeLeads }
{}

/// Law: the change from `s` to `t`, merged with the change from `t` to `u`, is the change from `s` to `u`.
pub fn changes_merge()
    ensures { ChangesMerge }
{}

/// Law, for any set and any route: the route is Valid if some VRP of the set matches it. It is Invalid if some VRP covers it and none matches it. It
/// is NotFound if no VRP covers it (RFC 6811 section 2).
pub fn state_by_members()
    ensures { StateByMembers }
{}

/// Law: a route has exactly one state for a set: Valid, Invalid or NotFound.
pub fn one_state()
    ensures { OneState }
{}

/// Law, for any set and any route: `covering` lists exactly the VRPs of the set that cover the route, in strictly ascending order.
pub fn covering_members()
    ensures { CoveringMembers }
{}

/// Law: a route is Valid if and only if one of the VRPs that cover it matches it. It is NotFound if and only if no VRP of the set covers it.
/// Otherwise it is Invalid (RFC 6811 section 2).
pub fn state_by_covering()
    ensures { StateByCovering }
{}

/// Law: `is_same` is true if and only if the two sets are equal.
pub fn same_exactly()
    ensures { SameExactly }
{}

/// Law: publishing a valid set keeps the invariants of an instance. Its session and first serial keep their range, all its sets are valid, and no set
/// equals the one published directly before it.
pub fn published_is_instance()
    ensures { PublishedIsInstance }
{}

/// Law, for a version that has fewer than 2^31 newer ones (RFC 1982 section 3.2; RFC 8210 section 2). `names`: if its serial is looked up among all
/// versions, the newest version with that serial is this version.
/// `kept`: among the kept versions, the same look-up finds this version or nothing.
/// `before`: its serial is before the serial of each newer version.
pub fn serials_name_versions()
    ensures names { NamesItself }
    ensures kept { KeptIsItself }
    ensures before { IsBeforeNewer }
{}
