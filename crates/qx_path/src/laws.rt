//! Laws of the names in bytes.
ghost use Rattle.std.specs.Prelude.{◌≡◌, ◌++◌, ◌∷◌, ℕ, List};
ghost use Rattle.qx_path.specs.Names.{names_in};

/// Bytes with a slash between them have the names of both.
pub fn names_of_joined_bytes()
    ensures { (a b : List ℕ) → names_in (a ++ 47 ∷ b) ≡ names_in a ++ names_in b }
{}
