//! How long a table keeps what was changed or dropped: its regimes, the horizon, and the stage of a span that has ended.
#![tactic(auto)]

pub mod laws;
pub mod regime;
pub mod regimes;
pub mod stage;

pub use regime::Regime;
pub use regimes::Regimes;
pub use stage::Stage;
