//! Ticks of the kernel beside those of the plain machine.
#![tactic(auto)]

#[cfg(test)]
mod begun;
#[cfg(test)]
mod beside;
#[cfg(test)]
mod byte_tests;
#[cfg(test)]
mod machine;
#[cfg(test)]
mod pages;
#[cfg(test)]
mod programs;
#[cfg(test)]
mod tests;
#[cfg(test)]
mod thread_tests;
