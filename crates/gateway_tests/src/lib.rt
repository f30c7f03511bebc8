// Tests of the gateway through its calls. Each call is checked in full: its answer, every octet of output and work area, and after
// a refusal the timer. Frames that are to go out are worked by hand (by_hand) or published; none was taken from the gateway.
#![tactic(auto)]

#[cfg(test)]
mod by_hand;
#[cfg(test)]
mod group;
#[cfg(test)]
mod line;
#[cfg(test)]
mod refusals;
#[cfg(test)]
mod samples;
#[cfg(test)]
mod sealed;
#[cfg(test)]
mod sessions;
#[cfg(test)]
mod site;
