//! Laws of listings.
ghost use Rattle.std.specs.Prelude.{◌≡◌};
ghost use Rattle.css_isa.specs.declared.code.Code.{Code};
ghost use Rattle.css_listing.specs.Lines.{listing, Fits};

/// A text is one code's listing: what was written is told apart by its text.
pub fn one_code()
    ensures { (a b : Code) → Fits a → Fits b → listing a ≡ listing b → a ≡ b }
{}
