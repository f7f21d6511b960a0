//! A journal over disks in memory and over real files. The tests of report_journal that need only what is public.
#![tactic(auto)]

#[cfg(test)]
mod tests;
