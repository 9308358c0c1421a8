//! The decoder beside DDI 0406C: it follows the manual, but for the departures.
#![tactic(auto)]
