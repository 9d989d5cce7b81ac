//! The rules on the directives after Relay and on aliases, as definitions, and theorems about them.
//! These rules are this project's own. It has no call that the program makes; its definitions stand in
//! `specs/`.
#![tactic(auto)]
