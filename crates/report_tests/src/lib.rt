// Tests of the crate `report`: shapes and their outlines, and the lines of text.

#![tactic(auto)]

#[cfg(test)]
mod shapes;
#[cfg(test)]
mod texts;
