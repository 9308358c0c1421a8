//! Words there and back, for the runs over every word and for timing.
#![tactic(auto)]

ghost use Rattle.std.specs.Prelude.{◌≡◌};
ghost use Rattle.a32.specs.Decode.{decode_of};
ghost use Rattle.encode_trip.specs.Trip.{back_of, trip_of};

use a32::decode;
use encode::{Encoded, encode_with};
use encode_home::Filler;
use word_packed::pack_answer;

/// The word that encoding the answer to `w` gives, with a refusal's number above it.
pub fn trip(w: u32, addr: u64) -> u64
    ensures { result ≡ trip_of Filler.Manual w addr }
{
    back(w, addr, Filler::Manual)
}

/// The same under the zero filler.
pub fn trip_zeros(w: u32, addr: u64) -> u64
    ensures { result ≡ trip_of Filler.Zeros w addr }
{
    back(w, addr, Filler::Zeros)
}

fn back(w: u32, addr: u64, filler: Filler) -> u64
    ensures { result ≡ trip_of filler w addr }
{
    pack_answer(encoded(w, addr, filler))
}

/// The home word that the answer to `w` leads to.
fn encoded(w: u32, addr: u64, filler: Filler) -> Encoded
    ensures { result ≡ back_of filler (decode_of w addr) }
{
    encode_with(decode(w, addr)?, filler)
}
