//! Whom a view that is promised dooms, and who goes on in it.
ghost use Rattle.request_laws.specs.Strays.{CoordinatorsHaveTheNumber, FencesSpareNoStrays, InstallationsSpareNoStrays};

/// A coordinator has the number of the view in which its host stands.
pub fn coordinators_have_the_number()
    ensures { CoordinatorsHaveTheNumber }
{}

/// A coordinator that is fenced above its view is so by a set that its member has promised; whoever is
/// undecided, isn't doomed and has no operation unanswered keeps to the members of that set.
#[tactic(auto, using(crate::proofs::strays::FencesSpareNone::fences_spare))]
pub fn fences_spare_no_strays()
    ensures { FencesSpareNoStrays }
{}

/// Where the host of a coordinator comes to stand in a greater view, whoever is undecided, isn't doomed
/// and has no operation unanswered keeps to the members of that view.
#[tactic(auto, using(crate::proofs::strays::InstallationsSpareNone::installations_spare))]
pub fn installations_spare_no_strays()
    ensures { InstallationsSpareNoStrays }
{}
