//! The worked examples, proved of the definitions.
ghost use Rattle.std.specs.Prelude.{◌≡◌};
ghost use Rattle.examples.specs.Stated.{WorkedExamples};

/// The number of worked examples that are proved of the definitions, all of them in this contract.
pub fn worked_examples() -> u8
    ensures count { result ≡ 9 }
    ensures stated { WorkedExamples }
{
    9
}
