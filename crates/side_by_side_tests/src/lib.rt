//! Room: sessions and server. Tests of sessions side by side, through the server: whole reports of
//! scripts whose sessions go on in an order that a gate fixes, and runs in which none is fixed.
#![tactic(auto)]

#[cfg(test)]
mod accounts;
#[cfg(test)]
mod conflicts;
#[cfg(test)]
mod crowd_tests;
#[cfg(test)]
mod gates;
#[cfg(test)]
mod locks;
#[cfg(test)]
mod merges;
#[cfg(test)]
mod row;
#[cfg(test)]
mod row_tests;
#[cfg(test)]
mod unguarded_tests;
#[cfg(test)]
mod views;
