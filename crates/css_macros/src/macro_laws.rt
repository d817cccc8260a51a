//! Laws of macros and of their replacement.
ghost use Rattle.std.specs.Prelude.{◌≡◌, ◌≢◌, ◌≤◌, ◌+◌, ℕ, List, [], ◌∷◌, length, flat_map, sum_by, false, Some, None};
ghost use Rattle.css_base.specs.Tokens.{Kind, Word};
ghost use Rattle.css_macros.specs.Macros.{Macro, Table, macro_of, defined, undefined, replaced, names_replaced, replacement, replacement_names};

/// A name that is defined is the macro of these tokens, and no other name changes.
pub fn defining_sets_one_name()
    ensures this { (table : Table) (name : List ℕ) (tokens : List Kind)
        → macro_of (defined table name tokens) name ≡ Some (record { tokens = tokens; predefined = false }) }
    ensures others { (table : Table) (name other : List ℕ) (tokens : List Kind)
        → name ≢ other → macro_of (defined table name tokens) other ≡ macro_of table other }
{}

/// A name that is undefined is no macro, and no other name changes.
pub fn undefining_takes_one_name()
    ensures this { (table : Table) (name : List ℕ) → macro_of (undefined table name) name ≡ None }
    ensures others { (table : Table) (name other : List ℕ) → name ≢ other → macro_of (undefined table name) other ≡ macro_of table other }
{}

/// A name that is no macro stays.
pub fn other_names_stay()
    ensures tokens { (table : Table) (name : List ℕ) → macro_of table name ≡ None → replacement table (Word name) ≡ Word name ∷ [] }
    ensures names { (table : Table) (name : List ℕ) → macro_of table name ≡ None → replacement_names table (Word name) ≡ 0 }
{}

/// A macro's name is replaced by the macro's tokens, each replaced as if the macro weren't defined (C99 6.10.3.4).
pub fn tokens_replace_a_macro()
    ensures tokens { (table : Table) (name : List ℕ) (m : Macro) → macro_of table name ≡ Some m
        → replacement table (Word name) ≡ flat_map (λ k. replacement (undefined table name) k) m.tokens }
    ensures names { (table : Table) (name : List ℕ) (m : Macro) → macro_of table name ≡ Some m
        → replacement_names table (Word name) ≡ 1 + sum_by (λ k. replacement_names (undefined table name) k) m.tokens }
{}

/// More levels than the table is long change nothing.
pub fn levels_are_enough()
    ensures tokens { (levels : ℕ) (table : Table) (kind : Kind) → length table ≤ levels → replaced levels table kind ≡ replacement table kind }
    ensures names { (levels : ℕ) (table : Table) (kind : Kind)
        → length table ≤ levels → names_replaced levels table kind ≡ replacement_names table kind }
{}
