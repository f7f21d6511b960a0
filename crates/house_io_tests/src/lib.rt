//! The forms in memory and the real ones, call by call. The tests of house_io that need only what is public.
#![tactic(auto)]

#[cfg(test)]
mod calls;
#[cfg(test)]
mod causes;
#[cfg(test)]
mod claim_calls;
#[cfg(test)]
mod disk_tests;
#[cfg(test)]
mod file_tests;
#[cfg(test)]
mod folder_asking;
#[cfg(test)]
mod link_asking;
#[cfg(test)]
mod link_calls;
#[cfg(test)]
mod link_tests;
#[cfg(test)]
mod noted_folder;
#[cfg(test)]
mod noted_net;
#[cfg(test)]
mod notes;
#[cfg(test)]
mod tests;
