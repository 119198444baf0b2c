//! What no row of `sanrows` can say: calls of the libraries below the top, each with values that
//! were worked out by hand or by programs that share nothing with this one.
#![tactic(auto)]

#[cfg(test)]
mod chains;
#[cfg(test)]
mod draws;
#[cfg(test)]
mod lines;
#[cfg(test)]
mod logs;
#[cfg(test)]
mod network;
#[cfg(test)]
mod orders;
#[cfg(test)]
mod overlays;
#[cfg(test)]
mod probes;
#[cfg(test)]
mod rewards;
#[cfg(test)]
mod sequential;
#[cfg(test)]
mod streams;
#[cfg(test)]
mod versions;
#[cfg(test)]
mod winners;
