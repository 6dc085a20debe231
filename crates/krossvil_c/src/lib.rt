// The static library, whose functions a host program in C calls: each calls the entry of the same name in `krossvil`, and promises what that
// promises. A crate is a library for other crates or a static library, not both.
#![tactic(auto)]

mod checking;
mod living;
mod reacting;
mod reporting;
mod restating;
mod running;
mod salvaging;
mod tables;
