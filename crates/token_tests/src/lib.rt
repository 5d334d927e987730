// Tests of the crates on tokens: their copies and keywords, and the small types of lexing. Definitions of macros are in `macro_cases`.
#![tactic(auto)]

#[cfg(test)]
mod lexing;
#[cfg(test)]
mod tokens;
