//! Home words beside DDI 0406C: the bits that it draws in parentheses are as drawn, but for the exceptions.
#![tactic(auto)]
