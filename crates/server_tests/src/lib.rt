//! Room: sessions and server. Tests the top call of `gem_server`, without a store and over one.
#![tactic(auto)]

#[cfg(test)]
mod alone_tests;
#[cfg(test)]
mod demo_tests;
#[cfg(test)]
mod faults_tests;
#[cfg(test)]
mod limits_tests;
#[cfg(test)]
mod reports;
#[cfg(test)]
mod short_sink;
#[cfg(test)]
mod store_tests;
#[cfg(test)]
mod turns;
