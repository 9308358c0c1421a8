//! What `a32_timed` offers to C.
#![tactic(auto)]

ghost use Rattle.std.specs.Prelude.{◌≡◌};
ghost use Rattle.a32_timed.specs.Timed.{decoded_of};

/// The name number of the answer to `w`, with its flow's number and its refusal above it.
#[unsafe(no_mangle)]
pub extern "C" fn decoded(w: u32, addr: u64) -> u64
    ensures { result ≡ decoded_of w addr }
{
    a32_timed::decoded(w, addr)
}
