//! Laws of the generated scenarios.
ghost use Rattle.aps_gen.specs.Laws.{GeneratedIsValid};

/// Whatever the seed, what is generated for sizes in their ranges is a scenario.
pub fn generated_is_valid()
    ensures { GeneratedIsValid }
{}
