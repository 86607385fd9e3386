//! What wakes the links of controllers for whom something waits.
use list_types::NoMemory;
use std::alloc::Global;
use std::sync::atomic::{AtomicBool, Ordering};
use std::sync::{Mutex, Wait};
use sw_edge::LinkWaker;

/// How many lanes have a link: lanes 0 to 31.
const LANES: usize = 32;

// Whether a lane's link was woken and has not looked since, and what wakes it.
#[derive(Drop)]
struct LaneWaker {
    woken: AtomicBool,
    waker: Mutex<Option<LinkWaker>>,
}

/// What wakes the link of each lane. A link that was woken is not woken again until it has looked.
#[derive(Drop)]
pub struct LinkWakers {
    lanes: Vec<LaneWaker>,
}

impl LinkWakers {
    /// No lane has a link.
    pub fn open(alloc: Global) -> Result<LinkWakers, NoMemory> {
        let mut lanes = Vec::with_capacity(alloc, LANES)?;
        for _lane in 0..LANES {
            lanes.push(LaneWaker {
                woken: AtomicBool::new(false),
                waker: Mutex::new(None),
            })?;
        }
        Ok(LinkWakers { lanes })
    }

    /// The lane's link is woken by this from now on, or by nothing.
    pub fn set<W: Wait>(&self, rt: &W, lane: u16, waker: Option<LinkWaker>) {
        let Some(place) = self.lanes.get(usize::from(lane)) else {
            return;
        };
        *place.waker.lock(rt) = waker;
        place.woken.store(false, Ordering::SeqCst);
    }

    /// The lane's link looks at what waits.
    pub fn look(&self, lane: u16) {
        if let Some(place) = self.lanes.get(usize::from(lane)) {
            place.woken.store(false, Ordering::SeqCst);
        }
    }

    /// Wakes the lane's link, if it has one.
    pub fn wake<W: Wait>(&self, rt: &W, lane: u16) {
        let Some(place) = self.lanes.get(usize::from(lane)) else {
            return;
        };
        if place.woken.swap(true, Ordering::SeqCst) {
            return;
        }
        if let Some(waker) = &*place.waker.lock(rt) {
            waker.wake();
        }
    }

    /// Wakes the link of each lane but one.
    pub fn wake_others<W: Wait>(&self, rt: &W, lane: u16) {
        for other in 0..LANES as u16 {
            if other != lane {
                self.wake(rt, other);
            }
        }
    }
}
