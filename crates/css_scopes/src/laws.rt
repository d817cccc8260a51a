//! Laws on scopes.
ghost use Rattle.std.specs.Prelude.{ℕ, List};
ghost use Rattle.css_types.specs.Types.{CType};
ghost use Rattle.css_scopes.specs.declared.meaning.Meaning.{Meaning};
ghost use Rattle.css_scopes.specs.Scopes.{Binding};
ghost use Rattle.css_scopes.specs.Laws.{BlocksClose, AreOfTypes};

/// A block that is closed takes away exactly what was declared in it and in the blocks inside it.
pub fn blocks_close<M>()
    ensures { BlocksClose M }
{}

/// Whatever types are in the code, what names mean is what they mean to the static rules.
pub fn scopes_are_of_types<T>()
    ensures { (type_as : T → CType) (scope : List (Binding (Meaning T))) (name : List ℕ) → AreOfTypes type_as scope name }
{}
