//! What the benchmark times of decoding, through one call from another language.
#![tactic(auto)]

ghost use Rattle.std.specs.Prelude.{◌≡◌};
ghost use Rattle.a32_timed.specs.Timed.{decoded_of};

use a32::decode;

/// The name number of the answer to `w` with its flow's number above it, or its refusal's number above both.
pub fn decoded(w: u32, addr: u64) -> u64
    ensures { result ≡ decoded_of w addr }
{
    match decode(w, addr) {
        Ok(i) => i.flow.number() as u64 * 0x1_0000 + i.name as u64,
        Err(refusal) => refusal.number() as u64 * 0x1_0000_0000,
    }
}
