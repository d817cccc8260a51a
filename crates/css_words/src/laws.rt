//! What holds of all words: each function's clause is a law.
ghost use Rattle.std.specs.Prelude.{◌≡◌, List};
ghost use Rattle.css_words.specs.declared.built.Built.{Built};
ghost use Rattle.css_words.specs.declared.request.Request.{Request};
ghost use Rattle.css_words.specs.Options.{Text};
ghost use Rattle.css_words.specs.Items.{Given, Says};
ghost use Rattle.css_words.specs.Reading.{Reads, HasBounds};

/// Words say at most one thing.
pub fn one_saying()
    ensures { (words : List Text) (g h : List Given) (os ps : List Text)
        → Says words g os → Says words h ps → (g ≡ h) × (os ≡ ps) }
{}

/// Words ask for at most one thing.
pub fn one_reading()
    ensures { (built : Built) (words : List Text) (these those : Request)
        → Reads built words these → Reads built words those → these ≡ those }
{}

/// What words ask for is in bounds.
pub fn readings_have_bounds()
    ensures { (built : Built) (words : List Text) (request : Request) → Reads built words request → HasBounds request }
{}
