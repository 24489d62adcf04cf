//! Room: running. Gives the tests of what a put or a make of objects may be, for every state that
//! shows its objects. Knows nothing of the Stone and of other sessions. Its tests stand in
//! `running_tests`.
#![tactic(auto)]

mod classes;
mod fitting;
mod known;
mod limits;
mod missing;
mod same;
mod sees;
mod spelled;
mod together;

pub use classes::{class_at, has_names};
pub use fitting::{all_fit, fits, is_segment};
pub use known::knows;
pub use limits::{are_within_limits, objects_cost};
pub use missing::missing_names;
pub use same::same_fixed;
pub use sees::Sees;
pub use spelled::{is_spelled, is_storable};
