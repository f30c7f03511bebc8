// Tests of the frames: published ones, and good and damaged ones of every length.
#![tactic(auto)]

#[cfg(test)]
mod reading;
#[cfg(test)]
mod sealing;
#[cfg(test)]
mod telegrams;
