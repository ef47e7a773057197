//! Tests of the parser, of the printer and of typing.
#![tactic(auto)]

#[cfg(test)]
mod parsing;
#[cfg(test)]
mod printing;
#[cfg(test)]
mod typing;
