//! Lists the section on standard input.
#![tactic(auto)]

use listing_stream::list;

fn main(rt: HostRuntime) {
    list(&rt, &mut rt.stdin());
}
