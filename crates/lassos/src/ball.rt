// The vertices to which plays can come from one, the nearest first, and the ways between them.

use crate::field::Field;
use crate::order::SearchOrder;
use game::list::List;
use std::alloc::{AllocError, Global};

/// Stands for the place of a vertex that the player doesn't win.
pub(crate) const LOST: u32 = u32::MAX;

/// Stands for the place of a vertex that the player wins, as long as it has none.
pub(crate) const UNMET: u32 = u32::MAX - 1;

/// A vertex to which a play can come.
#[derive(Clone, Copy, Default)]
pub(crate) struct Place {
    pub(crate) vertex: u32,
    pub(crate) priority: u8,
    /// Whether it takes a step to go on from it.
    pub(crate) is_step: bool,
    /// How many steps lead to it at least.
    pub(crate) far: u32,
    /// The place before, on one of the shortest ways to it.
    pub(crate) before: u32,
    // Where the ways on from it begin among all, and where those end that lead to places.
    pub(crate) start: u32,
    pub(crate) end: u32,
}

/// The vertices that have a place. The first is the one from which plays begin.
#[derive(Drop)]
pub(crate) struct Ball<'g> {
    pub(crate) field: Field<'g>,
    places: List<Place>,
    // For each place in turn the vertices to which ways lead. Once the search has gone on from it, the places of these stand at the front.
    ways: List<u32>,
    // The place of each vertex of the game.
    of_vertices: List<u32>,
    order: SearchOrder,
}

impl<'g> Ball<'g> {
    /// A vertex alone, where no vertex of the game has a place yet.
    pub(crate) fn new(
        alloc: Global,
        field: Field<'g>,
        of_vertices: List<u32>,
        center: u32,
    ) -> Self {
        let mut ball = Ball {
            field,
            places: List::none(alloc),
            ways: List::none(alloc),
            of_vertices,
            order: SearchOrder::START,
        };
        ball.place(center, 0, 0);
        ball
    }

    /// How many places there are.
    pub(crate) fn len(&self) -> u32 {
        number(self.places.len())
    }

    /// What is known of a place.
    pub(crate) fn at(&self, place: u32) -> Place {
        self.places.get_or(place as usize, Place::default())
    }

    /// Where ways lead from a place.
    pub(crate) fn after(&self, place: u32) -> &[u32] {
        let Place { start, end, .. } = self.at(place);
        self.ways.slice(start as usize, end as usize)
    }

    /// Adds the nearest vertices, until there are so many, or plays come to no others.
    pub(crate) fn grow(&mut self, most: u32) -> Result<(), AllocError> {
        for _ in 0..u64::MAX {
            if self.len() >= most {
                break;
            }
            let Some((place, by_step)) = self.order.next(self.places.len()) else {
                break;
            };
            self.add_ways(place, by_step);
        }
        if self.places.is_whole() && self.ways.is_whole() && self.of_vertices.is_whole() {
            Ok(())
        } else {
            Err(AllocError)
        }
    }

    // Adds the ways from a place, if it takes a step to go on from there, or if it takes none.
    fn add_ways(&mut self, place: usize, by_step: bool) {
        let before = number(place);
        let from = self.at(before);
        if from.is_step != by_step {
            return;
        }
        let far = from.far.saturating_add(u32::from(by_step));
        let mut end = from.start;
        let next = Place {
            start: number(self.ways.len()),
            ..Place::default()
        };
        let next = self.places.get_or(place.saturating_add(1), next);
        for way in from.start..next.start {
            let vertex = self.ways.get_or(way as usize, u32::MAX);
            if let Some(place) = self.place(vertex, far, before) {
                self.ways.set(end as usize, place);
                end = end.saturating_add(1);
            }
        }
        self.places.set(place, Place { end, ..from });
    }

    // The place of a vertex, if the player wins it and a play can go on. It is added where there is none yet.
    fn place(&mut self, vertex: u32, far: u32, before: u32) -> Option<u32> {
        let known = self.of_vertices.get_or(vertex as usize, LOST);
        if known != UNMET {
            return (known != LOST).then_some(known);
        }
        let Some((found, ways)) = self.field.place(vertex) else {
            self.of_vertices.set(vertex as usize, LOST);
            return None;
        };
        let place = self.len();
        let start = number(self.ways.len());
        self.of_vertices.set(vertex as usize, place);
        self.ways.extend(ways);
        self.places.push(Place {
            far,
            before,
            start,
            end: start,
            ..found
        });
        Some(place)
    }
}

fn number(count: usize) -> u32 {
    u32::try_from(count).unwrap_or(u32::MAX)
}
