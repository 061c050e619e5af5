//! The words of postures.
ghost use Rattle.std.specs.Prelude.{◌≡◌};
ghost use Rattle.plan_text.specs.Answers as spec;

use plan_types::Posture;

/// The word of a posture.
pub fn posture_word(posture: Posture) -> &'static str
    ensures { result.now ≡ spec.posture_word posture }
{
    match posture {
        Posture::Closed => "closed",
        Posture::Moving => "moving",
        Posture::OpenIn => "openin",
        Posture::OpenOut => "openout",
    }
}

/// The posture with this word, or `None` if none has it.
pub fn posture_in(word: &str) -> Option<Posture>
    ensures { result ≡ spec.posture_of word.now }
{
    if word == posture_word(Posture::Closed) {
        return Some(Posture::Closed);
    }
    if word == posture_word(Posture::Moving) {
        return Some(Posture::Moving);
    }
    if word == posture_word(Posture::OpenIn) {
        return Some(Posture::OpenIn);
    }
    if word == posture_word(Posture::OpenOut) {
        return Some(Posture::OpenOut);
    }
    None
}
