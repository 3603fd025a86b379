// Examples of the node library, with expected values worked out by hand from the rules of ITU-T G.8032.
#![tactic(auto)]

#[cfg(test)]
mod bench;
#[cfg(test)]
mod declining;
#[cfg(test)]
mod fabrics;
#[cfg(test)]
mod flushing;
#[cfg(test)]
mod forced;
#[cfg(test)]
mod idle;
#[cfg(test)]
mod making;
#[cfg(test)]
mod manual;
#[cfg(test)]
mod marks;
#[cfg(test)]
mod pending;
#[cfg(test)]
mod protection;
#[cfg(test)]
mod sending;
#[cfg(test)]
mod starting;
