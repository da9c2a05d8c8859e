// What the functions for C and Rust answer, as include/desk.h says. Crate desk_c_c exports each under the same
// name; a slice is a pointer and a length there.
//
// No function here has a requirement beyond what its types say, keeps state or allocates.
#![tactic(auto)]

mod caches; // the room's cache
mod papers; // the check, requests, slips
mod shown; // a response's refusal, its place and its parts

pub use caches::{desk_cache_ask, desk_cache_file};
pub use papers::{desk_check, desk_request, desk_slip};
pub use shown::{
    desk_algorithm, desk_certificates, desk_entry, desk_misfit, desk_refusal, desk_signature,
    desk_signed,
};
