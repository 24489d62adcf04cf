//! Room: running. Tests `session_view`: each of its calls, and a random walk beside a plain state.
#![tactic(auto)]

#[cfg(test)]
mod looks;
#[cfg(test)]
mod notes;
#[cfg(test)]
mod view_calls;
#[cfg(test)]
mod walk;
#[cfg(test)]
mod within;
