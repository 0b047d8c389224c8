//! Where threads wait: at the door of the lock until it is free, and all resting ones on one word until there is news.
//!
//! Contracts and the rule of the table leave these words out, since a thread that comes in reads the table. The door lets one
//! thread in at a time, so it finds its number served. A thread that runs may come in before one that was woken earlier: else the
//! lock would stand idle while a sleeper wakes up.
//!
//! A thread that is about to sleep first marks the word, and then checks once more. A waker first changes what is checked and
//! then looks for the mark. So no wake-up is lost.
ghost use Rattle.std.specs.Prelude.{◌≡◌, ◌≢◌};

use std::hint::spin_loop;
use std::sync::Wait;
use std::sync::atomic::AtomicU64;
use std::sync::atomic::Ordering::SeqCst;

// The states of the door.
const FREE: u64 = 0;

const TAKEN: u64 = 1;

// A thread is in, and others may sleep until it leaves.
const AWAITED: u64 = 2;

// How often a thread looks at the door before it sleeps: some microseconds in all, since a look takes less than a nanosecond.
const LOOKS: u32 = 10_000;

#[derive(Drop)]
pub(crate) struct Waits {
    door: AtomicU64,
    // The number of news so far, modulo 2^64.
    news: AtomicU64,
    // How many threads rest.
    resting: AtomicU64,
}

impl Waits {
    pub(crate) fn new() -> Waits {
        Waits {
            door: AtomicU64::new(FREE),
            news: AtomicU64::new(0),
            resting: AtomicU64::new(0),
        }
    }

    /// Waits until no other thread is in, and goes in.
    pub(crate) fn enter<W: Wait>(&self, rt: &W) {
        if self.enters_soon() {
            return;
        }
        for _ in rt.forever() {
            if self.door.swap(AWAITED, SeqCst) == FREE {
                return;
            }
            self.door.park(rt, AWAITED as u32);
        }
    }

    // Whether it could go in within some microseconds.
    fn enters_soon(&self) -> bool {
        for _ in 0..LOOKS {
            if self.door.load(SeqCst) == FREE && self.takes() {
                return true;
            }
            spin_loop();
        }
        false
    }

    fn takes(&self) -> bool {
        self.door
            .compare_exchange(FREE, TAKEN, SeqCst, SeqCst)
            .is_ok()
    }

    /// Leaves. It wakes one of the threads that sleep at the door.
    pub(crate) fn leave(&self) {
        if self.door.swap(FREE, SeqCst) == AWAITED {
            self.door.wake_one();
        }
    }

    pub(crate) fn news(&self) -> u64 {
        self.news.load(SeqCst)
    }

    /// Sleeps until the number of news differs, and answers the new number.
    pub(crate) fn rest<W: Wait>(&self, rt: &W, news: u64) -> u64
        ensures { result ≢ news }
    {
        self.resting.fetch_add(1, SeqCst);
        let later = self.await_news(rt, news);
        self.resting.fetch_sub(1, SeqCst);
        later
    }

    fn await_news<W: Wait>(&self, rt: &W, news: u64) -> u64
        ensures { result ≢ news }
    {
        for _ in rt.forever() {
            let later = self.news.load(SeqCst);
            if later != news {
                return later;
            }
            self.news.park(rt, (news % (1 << 32)) as u32);
        }
        unreachable!()
    }

    /// Wakes all resting threads if the two numbers differ.
    pub(crate) fn tell(&self, before: u64, after: u64) {
        if before != after {
            self.wake_all();
        }
    }

    /// Counts news, and wakes all resting threads.
    pub(crate) fn wake_all(&self) {
        self.news.fetch_add(1, SeqCst);
        if self.resting.load(SeqCst) != 0 {
            self.news.wake_all();
        }
    }
}
