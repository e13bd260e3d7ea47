//! Worked examples of the definitions. Each function's contract is that they hold; it does nothing.

ghost use Rattle.sx_spec_program.specs.Examples.{OpenExamples, WordExamples};

/// Words of the command line.
pub fn word_examples()
    ensures { WordExamples }
{}

/// Dumps of what isn't offered.
pub fn open_examples()
    ensures { OpenExamples }
{}
