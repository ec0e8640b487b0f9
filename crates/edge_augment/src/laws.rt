//! The laws of augmentation. Each function does nothing, and its contract is a law.

ghost use Rattle.edge_augment.specs.Augmentations.{LawOfAugmentation};
ghost use Rattle.edge_augment.specs.Laws.{LawOfDifferent, LawOfDisjointSets, LawOfEndSets, LawOfFewest, LawOfNumber, LawOfPairing, LawOfRaising, LawOfSeveral};

/// When a list of unit edges raises the value.
pub fn raising()
    ensures { LawOfRaising }
{}

/// The sets of the end nodes share no vertex.
pub fn disjoint_sets()
    ensures { LawOfDisjointSets }
{}

/// The sets of the end nodes are the inclusion-minimal ones that are a side or the complement of
/// one.
pub fn end_sets()
    ensures { LawOfEndSets }
{}

/// How many pairs are needed to separate every side.
pub fn fewest()
    ensures { LawOfFewest }
{}

/// Pairs of opposite end nodes separate every side.
pub fn pairing()
    ensures { LawOfPairing }
{}

/// How many pairs of opposite end nodes there are.
pub fn number()
    ensures { LawOfNumber }
{}

/// A normal cactus that has a block has two or more end nodes.
pub fn several()
    ensures { LawOfSeveral }
{}

/// The edges between opposite end nodes join two vertices each, and are different.
pub fn different()
    ensures { LawOfDifferent }
{}

/// The edges of a plan raise the value of a graph whose minimum cuts are the sides of the cactus,
/// and fewer do not.
pub fn augmentation()
    ensures { LawOfAugmentation }
{}
