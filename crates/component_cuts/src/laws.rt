//! Laws of components and minimum cuts. Each function does nothing, and its contract is a law.

ghost use Rattle.component_cuts.specs.Laws.{LawOfComponents, LawOfMinimumCuts, LawOfNumber, LawOfOneNumber};

/// The minimum cuts of a graph with two or more components are the unions of components without
/// vertex 1.
pub fn minimum_cuts()
    ensures { LawOfMinimumCuts }
{}

/// With c components there are 2^(c-1) - 1 such unions.
pub fn number()
    ensures { LawOfNumber }
{}

/// There are as many components as vertices that are joined to no lesser vertex, which are the
/// least vertices of the components.
pub fn components()
    ensures { LawOfComponents }
{}

/// The number of components of a graph is unique.
pub fn one_number()
    ensures { LawOfOneNumber }
{}
