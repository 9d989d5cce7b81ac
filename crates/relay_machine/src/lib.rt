//! The machine for every accepted project: what it says of a project, a script, and the lines that
//! are written. The program is held to it. It has no call of its own; its definitions stand in
//! `specs/`.
#![tactic(auto)]
