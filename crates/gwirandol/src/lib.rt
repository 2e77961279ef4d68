// The functions for C: libgwirandol.a, declared in include/gwirandol.h.
#![tactic(auto)]

mod events;
mod refusal;
mod structures;
mod traces;
mod version;
