//! A plan and a script after it, in one input.
ghost use Rattle.std.specs.Prelude.{◌≡◌, ◌<◌, ◌≤◌, length};
ghost use Rattle.plan_types.specs.Below.{first_below};
ghost use Rattle.plan_app.specs.Input as spec;

/// The most bytes of a script.
const MAX_SCRIPT_BYTES: usize = 4_194_304;

/// The most bytes of a plan and a script together.
pub const MAX_BYTES: usize = plan_document::MAX_BYTES + MAX_SCRIPT_BYTES;

// Its README names this number.
const _: () = prove!(MAX_BYTES == 4_259_840);

/// What a script begins with.
const BEGIN: &[u8] = b"start,";

/// Whether a line that begins with `start,` begins after the first `at` bytes.
fn is_begin(bytes: &[u8], at: usize) -> bool
    requires { at < length bytes.now }
    ensures { result ≡ spec.is_begin bytes.now at }
{
    (at == 0 || bytes[at - 1] == b'\n') && bytes[at..].starts_with(BEGIN)
}

/// The number `at`, if a line that begins with `start,` begins after the first `at` bytes.
fn begin_at(bytes: &[u8], at: usize) -> Option<usize>
    requires { at < length bytes.now }
    ensures { result ≡ spec.begin_at bytes.now at }
{
    is_begin(bytes, at).then_some(at)
}

/// How many bytes are before the first line that begins with `start,`, if there is one.
#[tactic(auto, using(plan_types::proofs::lemmas::Below::first_below_more))]
fn first_begin(bytes: &[u8]) -> Option<usize>
    ensures { result ≡ first_below (spec.begin_at bytes.now) (length bytes.now) }
{
    let mut first = None;
    for at in 0..bytes.len() {
        first = first.or(begin_at(bytes, at));
    }
    first
}

/// How many bytes the plan has: those before the first line that begins with `start,`, or all.
pub fn plan_length(bytes: &[u8]) -> usize
    ensures length { result ≡ spec.plan_length bytes.now }
    ensures within { result ≤ length bytes.now }
{
    first_begin(bytes).unwrap_or(bytes.len()).min(bytes.len())
}
