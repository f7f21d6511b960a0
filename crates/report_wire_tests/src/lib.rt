//! What no clause of report_wire says: the bytes of each message, and that its calls answer with ample memory.
#![tactic(auto)]

#[cfg(test)]
mod tests;
