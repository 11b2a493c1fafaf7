//! The code of modules whose operations' types fit is well formed.
#![tactic(auto)]

mod laws;

pub use laws::typed_code_well_formed;
