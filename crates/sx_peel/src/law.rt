//! What is proved of the definitions alone.

ghost use Rattle.sx_peel.specs.Law.{EdgesPeelOrHaveCore};

/// Edges of three different vertices are peeled by some order or have a core, and never both.
pub fn peeling_law()
    ensures { EdgesPeelOrHaveCore }
{}
