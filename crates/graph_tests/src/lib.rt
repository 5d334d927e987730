// Tests of the query graph, over the small rules of `query_tests`.
#![tactic(auto)]

#[cfg(test)]
mod tests;
