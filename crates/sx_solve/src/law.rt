//! What is proved of the definitions alone.

ghost use Rattle.sx_solve.specs.Law.{SystemsSolveOrHaveSum};

/// A linear system over GF(2), of whatever unknowns and values, is solved by some cells or has a sum, and never both.
pub fn solving_law()
    ensures { SystemsSolveOrHaveSum }
{}
