//! Tests of values, texts, bags, tokens, dates, scripts, histories, sources and sinks.
#![tactic(auto)]

#[cfg(test)]
mod dates;
#[cfg(test)]
mod edge;
#[cfg(test)]
mod histories;
#[cfg(test)]
mod scripts;
#[cfg(test)]
mod tokens;
#[cfg(test)]
mod values;
