//! Tests of bz_breakpad, over what it makes public.
#![tactic(auto)]

#[cfg(test)]
mod answered;
#[cfg(test)]
mod answers;
#[cfg(test)]
mod calling;
#[cfg(test)]
mod fact;
#[cfg(test)]
mod files;
#[cfg(test)]
mod found;
#[cfg(test)]
mod functions;
#[cfg(test)]
mod holding;
#[cfg(test)]
mod inspected;
#[cfg(test)]
mod lines;
#[cfg(test)]
mod named;
#[cfg(test)]
mod names;
#[cfg(test)]
mod read;
#[cfg(test)]
mod refused;
#[cfg(test)]
mod resolved;
#[cfg(test)]
mod resolvers;
#[cfg(test)]
mod sites;
#[cfg(test)]
mod tables;
#[cfg(test)]
mod texts;
#[cfg(test)]
mod told;
#[cfg(test)]
mod walked;
