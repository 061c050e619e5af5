//! What ram and loader ask, as texts and as calls, and the words of the replies.
ghost use Rattle.std.specs.Prelude.{◌≡◌, ◌↔◌, Some};
ghost use Rattle.two_by_hand.specs.Requests as specs;

use cell_types::{Answer, Call, Pose, Refusal, Reply, Zone};

/// Who asks.
#[derive(Clone, Copy)]
pub enum Party {
    /// The ram of the press, which hosts its interior.
    Ram,
    /// The loader, its guest.
    Loader,
}

/// What is asked.
#[derive(Clone, Copy)]
pub enum Request {
    /// The ram wants the interior for itself.
    RamIn,
    /// It is about to move.
    RamMoves,
    /// It stands open.
    RamOpens,
    /// It leaves the interior to the loader.
    RamOut,
    /// The loader wants to reach in.
    LoaderIn,
    /// It is out again.
    LoaderOut,
}

impl Request {
    /// The request with this text, or `None` if none has it.
    pub fn read(text: &str) -> Option<Request>
        ensures { (request : Request) → (result ≡ Some request) ↔ (text.now ≡ specs.request_text request) }
    {
        match text {
            "ram in" => Some(Request::RamIn),
            "ram moves" => Some(Request::RamMoves),
            "ram opens" => Some(Request::RamOpens),
            "ram out" => Some(Request::RamOut),
            "loader in" => Some(Request::LoaderIn),
            "loader out" => Some(Request::LoaderOut),
            _ => None,
        }
    }

    /// Whose request it is.
    pub fn party(self) -> Party
        ensures { result ≡ specs.party_of self }
    {
        match self {
            Request::LoaderIn | Request::LoaderOut => Party::Loader,
            _ => Party::Ram,
        }
    }

    /// The call of the interlock that it is.
    pub fn call(self) -> Call
        ensures { result ≡ specs.call_of self }
    {
        match self {
            Request::RamIn | Request::LoaderIn => Call::Claim(Zone::Z3),
            Request::RamOut | Request::LoaderOut => Call::Release(Zone::Z3),
            Request::RamMoves => Call::SetPose(Pose::Travelling),
            Request::RamOpens => Call::SetPose(Pose::Middle),
        }
    }
}

/// The word of a reply.
pub fn reply_word(reply: Reply) -> &'static str
    ensures { result.now ≡ specs.reply_word reply }
{
    match reply {
        Reply::Settled(Answer::Done, _) => "go",
        Reply::Settled(Answer::Refused(Refusal::Held(_)), _) => "wait: the other has it",
        Reply::Settled(Answer::Refused(Refusal::Shut(_)), _) => "wait: it isn't open",
        Reply::Settled(_, _) => "no",
        Reply::Busy { .. } => "again",
    }
}
