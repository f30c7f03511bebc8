// Tests of the call script: lines that cannot be read, limits, makings that are refused, what settings and buffers outlast.
#![tactic(auto)]

#[cfg(test)]
mod lines;
#[cfg(test)]
mod makings;
