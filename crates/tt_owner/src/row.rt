//! A row of the metrics view.
use tt_value::Text;

/// A table by its number, its name and its clone group, and the bytes that it owns: of its current layout, in Time
/// Travel, in Fail-safe, kept for a clone, and pending. The totals are whole, also where they pass the greatest INT.
#[derive(Drop)]
pub struct MetricRow {
    pub table: u32,
    pub name: Text,
    pub group: u32,
    pub active: u128,
    pub time_travel: u128,
    pub failsafe: u128,
    pub retained: u128,
    pub pending: u128,
}
