// Tests at the edges, on values worked by hand from the rules: limits of size, room in a buffer, the longest texts, and the order of
// a shelf's refusals. There is no code here but tests.
#![tactic(auto)]

#[cfg(test)]
mod limits;
#[cfg(test)]
mod malformed;
#[cfg(test)]
mod room;
#[cfg(test)]
mod runs;
#[cfg(test)]
mod session;
#[cfg(test)]
mod shelves;
#[cfg(test)]
mod tables;
#[cfg(test)]
mod trial;
