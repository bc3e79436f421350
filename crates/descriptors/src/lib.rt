// Type descriptors: a lent list of them, the check of the list, and which type has which at an offset.
#![tactic(auto)]

pub mod checking;
pub mod descriptor;
pub mod layout;
pub mod reading;
pub mod searching;
