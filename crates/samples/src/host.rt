// What a test has of the machine that it runs on.

use std::process::Abort;
use std::sync::Wait;
use std::thread::Threads;

/// It ends the test, has memory and threads, and waits.
pub trait Host: Abort + AllocGlobal + Threads + Wait + Clone + Copy + Drop + Send + Sync {}

impl<T: Abort + AllocGlobal + Threads + Wait + Clone + Copy + Drop + Send + Sync> Host for T {}
