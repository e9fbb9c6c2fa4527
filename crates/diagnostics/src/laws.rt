//! A law about all bytes that are shown: the contract of a function that does nothing. To use the law, call the function.

ghost use Rattle.diagnostics.specs.Laws.{AreHarmless};

/// No line or name is shown with a control byte of ASCII, except for tabs.
pub fn shown_bytes_are_harmless()
    ensures { AreHarmless }
{}
