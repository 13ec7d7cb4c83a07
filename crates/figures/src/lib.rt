// Tests of the other crates on examples. Each expected value is worked out by hand from the rules that stand beside it, never taken from the code.
#![tactic(auto)]

#[cfg(test)]
mod accepted;
#[cfg(test)]
mod fields;
#[cfg(test)]
mod joined;
#[cfg(test)]
mod limits;
#[cfg(test)]
mod pieces;
#[cfg(test)]
mod refused;
