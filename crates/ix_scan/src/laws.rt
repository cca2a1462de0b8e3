//! Laws of scans. The function does nothing: what it ensures is a fact.
ghost use Rattle.ix_scan.specs.ScanLaws.{GoesOnBehind, HasOneScanWithout, IsScanIfNothingIsGone};

/// A collection has one scan for a query and what is gone. If nothing is gone, it is the collection's own, and it goes on
/// with what is found in documents behind it.
pub fn scans_without()
    ensures one { HasOneScanWithout }
    ensures whole { IsScanIfNothingIsGone }
    ensures more { GoesOnBehind }
{}
