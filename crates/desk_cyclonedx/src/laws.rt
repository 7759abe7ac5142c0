//! Laws of CycloneDX documents, each the contract of a function with an empty body.

ghost use Rattle.std.specs.Prelude.{◌≡◌, ℕ, List};
ghost use Rattle.hex.specs.Hex.{IsBytes};
ghost use Rattle.desk_cyclonedx.specs.Names.{component_id};

/// Components with distinct references have distinct identifiers.
pub fn identifiers_stay_distinct()
    ensures { (a b : List ℕ) → IsBytes a → IsBytes b → component_id a ≡ component_id b → a ≡ b }
{}
