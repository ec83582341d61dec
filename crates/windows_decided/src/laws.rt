//! A law of the definitions: a function without a body, whose contract is the law.

ghost use Rattle.windows_decided.specs.Decided.{WindowsAreDecided};

/// After any two streams of events a window is seen alike, or it isn't (CTA-708-E, caption windows).
pub fn windows_are_decided()
    ensures { WindowsAreDecided }
{}
