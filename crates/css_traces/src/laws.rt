//! Laws of the texts of traces.
ghost use Rattle.std.specs.Prelude.{◌≡◌};
ghost use Rattle.css_traces.specs.declared.traces.Traces.{Traces};
ghost use Rattle.css_traces.specs.Lines.{trace_text, Fits};

/// A text is one trace's: what was written is told apart by its text.
pub fn one_trace()
    ensures { (a b : Traces) → Fits a → Fits b → trace_text a ≡ trace_text b → a ≡ b }
{}
