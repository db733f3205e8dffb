// What workers run by.
use std::sync::Wait;
use std::thread::Threads;

/// The handle by which threads are started and wait for each other. Each of them has a copy.
pub trait Runtime: Threads + Wait + Copy + Drop + Send + Sync {}

impl<R: Threads + Wait + Copy + Drop + Send + Sync> Runtime for R {}
