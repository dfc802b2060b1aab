//! A gate at which two sessions and the publisher meet.
use base_io::Gate;
use std::sync::atomic::{AtomicU64, Ordering};
use std::thread::sleep;
use std::time::{Clock, Duration};

/// How often one looks for the others before it gives up. It sleeps for a millisecond after each
/// look, so that it waits for 20 seconds at least, however late the others' threads begin.
const MOST_LOOKS: u64 = 20_000;

/// Keeps the publisher at turn 4 until both sessions are at turn 3, and each session there until
/// the other is there and the publisher has come to turn 5. It counts how often one waited in vain.
#[derive(Drop)]
pub(crate) struct MeetGate<'a, C: Clock> {
    clock: &'a C,
    publisher: AtomicU64,
    first: AtomicU64,
    second: AtomicU64,
    misses: AtomicU64,
}

impl<'a, C: Clock> MeetGate<'a, C> {
    /// A gate that nobody has passed.
    pub(crate) fn new(clock: &'a C) -> MeetGate<'a, C> {
        MeetGate {
            clock,
            publisher: AtomicU64::new(0),
            first: AtomicU64::new(0),
            second: AtomicU64::new(0),
            misses: AtomicU64::new(0),
        }
    }

    /// How often one waited in vain.
    pub(crate) fn misses(&self) -> u64 {
        self.misses.load(Ordering::SeqCst)
    }

    /// Waits until the two have come to these turns.
    fn meet(&self, one: &AtomicU64, least: u64, other: &AtomicU64, most: u64) {
        for _ in 0..MOST_LOOKS {
            if one.load(Ordering::SeqCst) >= least && other.load(Ordering::SeqCst) >= most {
                return;
            }
            sleep(self.clock, Duration::from_millis(1));
        }
        self.misses.fetch_add(1, Ordering::SeqCst);
    }
}

impl<C: Clock> Gate for MeetGate<'_, C> {
    fn pass(&self, who: u32, turn: u64) {
        let mine = match who {
            0 => &self.publisher,
            1 => &self.first,
            _ => &self.second,
        };
        mine.store(turn, Ordering::SeqCst);
        match (who, turn) {
            (0, 4) => self.meet(&self.first, 3, &self.second, 3),
            (1, 3) => self.meet(&self.second, 3, &self.publisher, 5),
            (2, 3) => self.meet(&self.first, 3, &self.publisher, 5),
            _ => {}
        }
    }
}
