//! Tests of the passes over modules: what is printed of the module that a pass gives, and what its runs tell.
#![tactic(auto)]

#[cfg(test)]
mod checked;
#[cfg(test)]
mod failing;
#[cfg(test)]
mod tests;
#[cfg(test)]
mod told;
