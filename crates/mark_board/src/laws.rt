//! Laws of marks. The function does nothing, and its contract is the law.

ghost use Rattle.mark_board.specs.Laws.{LawOfMarkedContraction};

/// What contraction keeps if marks join any two vertices of a class, and are safe for a bound that
/// is the weight of some cut. With slack 0 the value is the smaller of the bound and the
/// contracted graph's value, or the bound if one class is left. With slack 1 the value and all
/// minimum cuts are kept.
pub fn marked_contraction()
    ensures { LawOfMarkedContraction }
{}
