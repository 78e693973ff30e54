//! Where threads sleep until their turns come. No contract speaks of a bell or a parking lot: what they do is wake.
ghost use Rattle.std.specs.Prelude.{◌≡◌, length, IfOk};

use crossbeam_utils::CachePadded;
use std::alloc::{AllocError as NoMemory, Global};
use std::sync::Wait;
use std::sync::atomic::{AtomicU64, Ordering};
use std::time::Duration;

/// How many bells there are: as many as passes at most, so that no two tickets of a cell that are
/// out have one bell.
const BELLS: usize = 64;

/// How many parking lots there are: one a cell, and cells are at most as many.
const LOTS: usize = 65;

/// How many milliseconds a thread is parked at most.
const LONGEST_SLEEP: u64 = 10;

/// What rings for a ticket.
#[derive(Drop)]
pub struct Bell {
    // How often it rang. Who hears it sleeps on this word.
    rings: AtomicU64,
    // How many threads sleep, or are about to.
    sleepers: AtomicU64,
}

impl Bell {
    fn new() -> Bell {
        Bell {
            rings: AtomicU64::new(0),
            sleepers: AtomicU64::new(0),
        }
    }

    /// Counts a thread that is about to sleep, and says how often the bell has rung. The thread has
    /// to look once more whether it must wait: who lets it go on after that look finds it counted.
    pub fn lie_down(&self) -> u32 {
        self.sleepers.fetch_add(1, Ordering::SeqCst);
        (self.rings.load(Ordering::SeqCst) & 0xffff_ffff) as u32
    }

    /// Sleeps until the bell has rung more often than was heard. It may also wake for no reason.
    pub fn sleep<R: Wait>(&self, rt: &R, heard: u32) {
        self.rings.park(rt, heard);
    }

    /// The thread that was counted is up again.
    pub fn get_up(&self) {
        self.sleepers.fetch_sub(1, Ordering::SeqCst);
    }

    /// Wakes who sleeps. It costs one look where nobody does.
    pub fn ring(&self) {
        if self.sleepers.load(Ordering::SeqCst) != 0 {
            self.rings.fetch_add(1, Ordering::SeqCst);
            self.rings.wake_all();
        }
    }
}

/// Where threads without a ticket sleep, outside the queue of a cell. Nothing else lies on its cache lines, since who
/// leaves the cell looks at it each time.
#[derive(Drop)]
pub struct ParkingLot {
    // 1 where some thread may sleep, 0 where none does or one was woken that has not yet told of others.
    waiters: CachePadded<AtomicU64>,
}

impl ParkingLot {
    fn new() -> ParkingLot {
        ParkingLot {
            waiters: CachePadded::new(AtomicU64::new(0)),
        }
    }

    fn waiters(&self) -> &AtomicU64 {
        &self.waiters
    }

    /// Tells that some thread may sleep. Who is about to sleep has to look once more whether it must: who lets it go on
    /// after that look finds it told. So does who was woken, before it leaves the cell, since others may still sleep.
    pub fn announce(&self) {
        self.waiters().store(1, Ordering::SeqCst);
    }

    /// Whether some thread may sleep.
    pub fn has_waiters(&self) -> bool {
        self.waiters().load(Ordering::SeqCst) != 0
    }

    /// Sleeps, unless what was announced was answered already, until this thread is woken or has slept for long. It may
    /// also wake for no reason.
    pub fn park<R: Wait>(&self, rt: &R) {
        let long = Duration::from_millis(LONGEST_SLEEP);
        self.waiters().park_timeout(rt, 1, long);
    }

    /// Wakes one that sleeps, and none beside it until it has told of others.
    pub fn unpark_one(&self) {
        self.waiters().store(0, Ordering::SeqCst);
        self.waiters().wake_one();
    }
}

/// The bells of all tickets, and the parking lots of all cells.
#[derive(Drop)]
pub struct Bells {
    bells: Vec<Bell>,
    lots: Vec<ParkingLot>,
    ghost all: { length bells.items ≡ 64 },
    ghost each: { length lots.items ≡ 65 },
}

impl Bells {
    pub fn new(alloc: Global) -> Result<Bells, NoMemory> {
        let bells = hang(alloc)?;
        let lots = build(alloc)?;
        Ok(Bells { bells, lots })
    }

    /// The bell of a ticket. Tickets of different cells may share one, which then wakes both.
    pub fn of(&self, cell: usize, number: u64) -> &Bell {
        &self.bells[(number.wrapping_add(cell as u64) % 64) as usize]
    }

    /// The parking lot of a cell. No two cells share one: a thread that was woken for the one would not wake who waits for the
    /// other.
    pub fn lot(&self, cell: usize) -> &ParkingLot {
        &self.lots[cell % LOTS]
    }
}

fn hang(alloc: Global) -> Result<Vec<Bell>, NoMemory>
    ensures { IfOk result (λ bells. length bells.items ≡ 64) }
{
    let mut bells = Vec::with_capacity(alloc, BELLS)?;
    for _ in 0..BELLS {
        bells.push(Bell::new())?;
    }
    Ok(bells)
}

fn build(alloc: Global) -> Result<Vec<ParkingLot>, NoMemory>
    ensures { IfOk result (λ lots. length lots.items ≡ 65) }
{
    let mut lots = Vec::with_capacity(alloc, LOTS)?;
    for _ in 0..LOTS {
        lots.push(ParkingLot::new())?;
    }
    Ok(lots)
}
