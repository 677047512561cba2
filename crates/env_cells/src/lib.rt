//! The environment of a policy: switches with their up ports, hosts, links, and tables of numbers.
#![tactic(auto)]

mod behind;
mod checks;
pub mod environment;
mod number_map;
mod sorted_map;
mod tables;
mod up_ports;
pub mod updates;

pub use behind::EnvBehind;
pub use environment::{
    Env, MOST_HOSTS, MOST_LINKS, MOST_NUMBERS, MOST_SWITCHES, MOST_TABLES, MOST_UP_PORTS,
};
pub use maple_base::UpdateRefused;
pub use updates::{Update, UpdateError};
