//! How a thread waits for a message.
use crossbeam_channel::{Receiver, TryRecvError};
use std::sync::Wait;
use std::thread;

/// How often a thread tries to receive a message before it sleeps.
const TRIES: u32 = 24;

/// The next message; none once there are none and each sender is gone.
///
/// Messages follow each other closely: a thread that tries some times before it sleeps, and lets others run in
/// between, needn't be woken.
pub(crate) fn next_message<T: Drop, R: Wait>(rt: &R, receiver: &Receiver<T>) -> Option<T> {
    for _ in 0..TRIES {
        match receiver.try_recv(rt) {
            Ok(message) => return Some(message),
            Err(TryRecvError::Empty) => thread::yield_now(),
            Err(TryRecvError::Disconnected) => return None,
        }
    }
    receiver.recv(rt).ok()
}
