//! Laws of the flat cactus. Each function does nothing, and its contract is a law.

ghost use Rattle.flat_cactus.specs.FlatLaws.{LawOfFlatForm, LawOfFlatOrder, LawOfFlatSides};

/// The flat cactus of a cactus is well formed.
pub fn flat_form()
    ensures { LawOfFlatForm }
{}

/// The bridges of the flat cactus of a cactus ascend by their second nodes. Its cycles do too, and
/// each cycle ascends.
pub fn flat_order()
    ensures { LawOfFlatOrder }
{}

/// The flat cactus of a cactus has the sides of the cactus. Removing one bridge cuts off from node
/// 0 exactly the nodes below the bridge. Removing two edges of one cycle cuts off exactly those
/// below the children between the two edges.
pub fn flat_sides()
    ensures { LawOfFlatSides }
{}
