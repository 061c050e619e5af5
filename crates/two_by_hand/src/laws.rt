//! A law of requests and replies, the contract of a function that does nothing.

ghost use Rattle.two_by_hand.specs.RequestExamples.{RequestsAreMet};

/// The text, the party and the call of each request, and the words of replies.
pub fn requests_are_met()
    ensures { RequestsAreMet }
{}
