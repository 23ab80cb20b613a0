// Every entry for callers in other languages, for one archive.
#![tactic(auto)]

mod key;
mod network;
mod paper;
mod planner;
mod relay;
mod server;
mod user;
