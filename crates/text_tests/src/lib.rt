// Tests of the crates on texts: edits, paths and URIs, members of JSON, the current texts, options.
#![tactic(auto)]

#[cfg(test)]
mod documents;
#[cfg(test)]
mod edits;
#[cfg(test)]
mod members;
#[cfg(test)]
mod options;
#[cfg(test)]
mod path_vectors;
#[cfg(test)]
mod paths;
#[cfg(test)]
mod places;
