//! Threads that ask a list of numbers, and threads that ask a world by asks with stored closures.
mod numbers;
mod world;
