// The places of a ball with no greater priority than some, from which ways lead on and on.

use crate::ball::Ball;
use crate::order::whole;
use game::list::List;
use std::alloc::{AllocError, Global};

/// Places that have no greater priority. All loops through such places are among them.
#[derive(Drop)]
pub(crate) struct LowPlaces {
    /// The greatest priority.
    pub(crate) top: u8,
    // A mark for each place, true where ways lead on from it to one to which a way leads back.
    leads_on: List<bool>,
    /// Those to which a way leads back, from themselves or a later one, the last first. The first place of a loop is such.
    pub(crate) heads: List<u32>,
}

impl LowPlaces {
    pub(crate) fn of(alloc: Global, ball: &Ball, top: u8) -> Result<Self, AllocError> {
        let mut part = LowPlaces {
            top,
            leads_on: whole(List::filled(alloc, ball.len() as usize, false))?,
            heads: List::none(alloc),
        };
        let mut led_to = whole(List::filled(alloc, ball.len() as usize, false))?;
        for place in (0..ball.len()).rev() {
            if ball.at(place).priority <= top {
                part.add(ball, place, &mut led_to);
            }
        }
        if part.heads.is_whole() {
            Ok(part)
        } else {
            Err(AllocError)
        }
    }

    // Adds a place, where all later ones are added, if ways lead on from it.
    fn add(&mut self, ball: &Ball, place: u32, led_to: &mut List<bool>) {
        let mut leads_on = false;
        for to in ball.after(place) {
            if *to <= place && ball.at(*to).priority <= self.top {
                led_to.set(*to as usize, true);
                leads_on = true;
            } else if self.leads_on(*to) {
                leads_on = true;
            }
        }
        self.leads_on.set(place as usize, leads_on);
        if leads_on && led_to.get_or(place as usize, false) {
            self.heads.push(place);
        }
    }

    /// Whether ways lead on from a place.
    pub(crate) fn leads_on(&self, place: u32) -> bool {
        self.leads_on.get_or(place as usize, false)
    }

    /// The places with the greatest priority, in the order in which a walk leaves them that goes depth first from the heads. A place is left after all to which
    /// ways lead from it, but for those from which others lead back to it.
    pub(crate) fn left_tops(&self, alloc: Global, ball: &Ball) -> Result<List<u32>, AllocError> {
        let mut seen = whole(List::filled(alloc, ball.len() as usize, 0u32))?;
        let mut left = List::none(alloc);
        let mut path = List::none(alloc);
        path.extend(self.heads.as_slice());
        for _ in 0..u64::MAX {
            let Some(place) = path.pop() else {
                break;
            };
            let number = seen.get_or(place as usize, 0);
            if let Some(to) = ball.after(place).get(number as usize) {
                seen.set(place as usize, number.saturating_add(1));
                path.push(place);
                if self.leads_on(*to) && seen.get_or(*to as usize, 0) == 0 {
                    path.push(*to);
                }
            } else if ball.at(place).priority == self.top {
                left.push(place);
            }
        }
        whole(path)?;
        whole(left)
    }
}
