//! Every order in which the lines of some tracks can run, tried on a machine and proved tried.
//!
//! A block has tracks of lines. Each track's lines keep their order, and the tracks interleave in every possible way.
//! Blocks run one after another. A line can go several ways, and goes each of them.
//!
//! [`explore`] answers the ends that orders lead to, or an order that breaks an expectation, or that a limit is exceeded.
//! Its contract is about every order (`Explores` in specs/Explorations.antt).
//!
//! The states after the same number of lines are kept in a layer, each with the number of its orders and the first of them.
//! Equal states at the same places of all tracks are kept once. No layer has more states than the limit, and each run of a
//! line is one step. The contract has the layers and the steps, but not that equal states are kept once.
//!
//! Lines run on one runner ([`Machine::Runner`]). It comes to the state of a node, and then to the state that the line leads
//! to. A new state is kept, in the memory of a node that is no longer needed. So a step makes no state that isn't kept.
//!
//! A machine can note a line ([`Ran::Noted`]). [`Explored::noted`] tells of each line whether the machine noted it in some
//! order. The contract says that a line that is told can be noted in some order, and that each other line can run without a
//! note in every order (`AreNoted` in specs/Notes.antt).
//!
//! [`explore_part`] tries the orders of one [`Part`] alone. Each order is in exactly one part, and the parts' numbers of
//! orders add up ([`parts_share_all`]).
//!
//! [`explore_on`] does so by several jobs: one on the calling thread, each other one on a thread of its own. Each line that
//! runs from a node of a layer is of one job, by the places that it leads to. So one job finds equal states, and keeps them
//! once. Only where many lines lead to the same places, several jobs share these, and states that two of them found are
//! merged. Then the nodes are brought into the order in which one thread finds them. If a job breaks an expectation or
//! exceeds a limit, one thread makes the layer again, so that each number of jobs stops at the same place. A [`Watch`] is
//! told how far it is.
//!
//! [`reach`] answers every state that is reached from one by lines that are left, in whatever order and however many of
//! them (`Reaches` in specs/Reached.antt).
//!
//! Not claimed: that there is memory enough, that the limits are enough, or how much time it takes. If a machine's steps are
//! not determined, only those that its `run` chooses are tried, and a line that another choice would note may not be told.
#![tactic(auto)]

mod block;
mod boundary;
mod codes;
mod expand;
mod fork;
mod gathered;
mod index;
mod job_layers;
mod jobs;
mod layer;
mod limits;
mod machine;
mod merged;
mod node;
mod node_queue;
mod notes;
mod ordered;
mod owners;
mod part;
mod places;
mod ran;
mod reaching;
mod splits;
mod stop;
mod turn;
mod twin_pair;
mod walk;
mod watch;

pub use limits::Limits;
pub use machine::Machine;
pub use node::Node;
pub use part::Part;
pub use ran::Ran;
pub use reaching::reach;
pub use splits::{first_turns_split, parts_share_all};
pub use stop::Stop;
pub use turn::Turn;
pub use walk::{Explored, explore, explore_on, explore_part};
pub use watch::{Progress, Watch};
