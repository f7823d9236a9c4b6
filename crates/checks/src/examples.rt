// Worked examples.
ghost use Rattle.checks.specs.Examples.{Examples};

// Each example is a fact about the definitions that the contracts cite.
pub fn examples_stand()
    ensures { Examples }
{}
