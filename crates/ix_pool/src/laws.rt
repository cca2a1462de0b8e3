//! A law of the definitions. The function does nothing: what it ensures is a fact about them.
ghost use Rattle.ix_pool.specs.ShareLaws.{EachOfOneMaker, NoneFromTheCountOn};

/// If each place below a count is asked for once over all makers, one maker alone was asked for it, and once; and no
/// maker was asked for any other place.
pub fn each_place_is_of_one_maker()
    ensures one { EachOfOneMaker }
    ensures no_other { NoneFromTheCountOn }
{}
