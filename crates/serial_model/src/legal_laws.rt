//! What a first difference tells of a list of entries.
ghost use Rattle.serial_model.specs.LegalLaws.{LegalListsHaveNoDifference, FirstDifferencesAreOne};

/// A legal list has no first difference, and two first differences of a list are in the same place,
/// with the same answers. Does nothing: its contract is the law.
pub fn legal_lists_have_no_difference()
    ensures legal { LegalListsHaveNoDifference }
    ensures one { FirstDifferencesAreOne }
{}
