// Tests of the crates at the server's edges: the ends in memory, and frames.
#![tactic(auto)]

#[cfg(test)]
mod ends;
#[cfg(test)]
mod frame_cases;
#[cfg(test)]
mod frames;
