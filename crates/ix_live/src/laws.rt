//! Laws of states.
ghost use Rattle.ix_live.specs.StateScans.{HasOneStateScan, IsScanWhereNoneIsRemoved};

/// A state has one scan for a query, and if nothing is removed it is that of the collection.
pub fn a_state_has_one_scan()
    ensures one { HasOneStateScan }
    ensures whole { IsScanWhereNoneIsRemoved }
{}
