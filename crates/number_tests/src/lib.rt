//! Tests of numbers, sets and terms; of bounds between unknowns: whether integers meet them, and those
//! of choices of them; and of formulas and their cases.
#![tactic(auto)]

#[cfg(test)]
mod bounds;
#[cfg(test)]
mod build;
#[cfg(test)]
mod cases;
#[cfg(test)]
mod choices;
#[cfg(test)]
mod differences;
#[cfg(test)]
mod formulas;
#[cfg(test)]
mod ranges;
#[cfg(test)]
mod terms;
#[cfg(test)]
mod widths;
