//! Laws of an insertion. Each function does nothing, and its contract is a law.

ghost use Rattle.cactus_growth.specs.Laws.{LawOfConnection, LawOfKeptCuts, LawOfRise, LawOfWeights};

/// An insertion adds its weight to the weight of each set that separates its two vertices, and
/// nothing to that of others.
pub fn weights()
    ensures { LawOfWeights }
{}

/// If some minimum cut does not separate the two vertices, the value stays, and the minimum cuts
/// are exactly those that do not separate them.
pub fn kept_cuts()
    ensures { LawOfKeptCuts }
{}

/// If every minimum cut separates the two vertices, the value rises.
pub fn rise()
    ensures { LawOfRise }
{}

/// A connected graph stays connected.
pub fn connection()
    ensures { LawOfConnection }
{}
