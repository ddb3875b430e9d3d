// Sites that bring their lists together by letters.
#![tactic(auto)]

pub mod ladder;
pub mod network;
pub mod site;
pub mod together;
