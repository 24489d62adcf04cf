//! Room: running. Tests the primitives (`prim_numbers`, `prim_classes`, `prim_collections`,
//! `prim_shared`, by `prim_calls`), `st_outside`, `st_commands` and `st_plain`, on a `plain_state`.
#![tactic(auto)]

#[cfg(test)]
mod calls;
#[cfg(test)]
mod ready;
#[cfg(test)]
mod replies;
