//! Tests of texts: what plays a case file, and the laws of a dialect at the dialects.
#![tactic(auto)]

#[cfg(test)]
mod case_files;
#[cfg(test)]
mod laws;
