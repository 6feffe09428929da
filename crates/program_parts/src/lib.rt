//! Programs in parts: what is realised part by part, each from where the last one ended, is realised.
//!
//! A program's barriers cut it in parts. `specs/Cuts.antt` says how a list is cut, `specs/Parts.antt` what it means that parts are
//! realised one after the other; `laws` says that the whole is then realised, and that counts add up.
#![tactic(auto)]

pub mod laws;
