//! What `a32_digest` offers to C.
#![tactic(auto)]

ghost use Rattle.std.specs.Prelude.{◌≡◌};
ghost use Rattle.a32_digest.specs.Digest.{digest_of};

/// Folds the answers to `count` words from `first` on, all at `addr`, into `h`. The word after the last of all is 0.
#[unsafe(no_mangle)]
pub extern "C" fn digest(h: u64, first: u32, count: u32, addr: u64) -> u64
    ensures { result ≡ digest_of h first count addr }
{
    a32_digest::digest(h, first, count, addr)
}
