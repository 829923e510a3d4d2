//! The doors of the register as the program sees them: a gate gives ways for a door, a way gives connections, a duty works
//! them, and a spawner works duties side by side. Each is a trait with a written meaning, with forms in memory for tests and
//! theorems (`MemGate`, `MemWay`, `InTurn`, and those that fail at chosen calls) and one over what std gives (`SocketGate`,
//! `SocketWay`, `ThreadSpawner`).
//!
//! They count their faults as the sources and sinks of `link_face` do.
#![tactic(auto)]

pub use door::Door;
pub use duty::Duty;
pub use failing_gate::FailingGate;
pub use failing_in_turn::FailingInTurn;
pub use failing_way::FailingWay;
pub use gate::Gate;
pub use in_turn::InTurn;
pub use mem_gate::MemGate;
pub use mem_way::MemWay;
pub use outcome::Outcome;
pub use socket_gate::SocketGate;
pub use socket_way::SocketWay;
pub use spawner::Spawner;
pub use thread_spawner::ThreadSpawner;
pub use way::Way;

pub mod door;
pub mod duty;
pub mod failing_gate;
pub mod failing_in_turn;
pub mod failing_way;
pub mod gate;
pub mod in_turn;
pub mod mem_gate;
pub mod mem_way;
pub mod outcome;
pub mod socket_gate;
pub mod socket_way;
pub mod spawner;
pub mod thread_spawner;
pub mod way;
mod working;
