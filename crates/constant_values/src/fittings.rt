//! How the fittings of literals and of values that are given go together.
ghost use Rattle.constant_values.specs.Fittings.{LiteralsFit, AgreeingTypesFit};

/// Law: a literal without variables that fits a type evaluates to a value that fits it (GraphQL,
/// October 2021, sections 3.12 and 5.6.1).
pub fn literals_fit()
    ensures { LiteralsFit }
{}

/// Law: where the type of a variable agrees with that of its place, what fits the one fits the other
/// (GraphQL, October 2021, section 5.8.5).
pub fn agreeing_types_fit()
    ensures { AgreeingTypesFit }
{}
