//! What `encode_trip` offers to C.
#![tactic(auto)]

ghost use Rattle.std.specs.Prelude.{◌≡◌};
ghost use Rattle.encode_trip.specs.Trip.{trip_of};

use encode_home::Filler;

/// The word that encoding the answer to `w` gives, with a refusal's number above it.
#[unsafe(no_mangle)]
pub extern "C" fn trip(w: u32, addr: u64) -> u64
    ensures { result ≡ trip_of Filler.Manual w addr }
{
    encode_trip::trip(w, addr)
}

/// The same under the zero filler.
#[unsafe(no_mangle)]
pub extern "C" fn trip_zeros(w: u32, addr: u64) -> u64
    ensures { result ≡ trip_of Filler.Zeros w addr }
{
    encode_trip::trip_zeros(w, addr)
}
