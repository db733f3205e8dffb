// Labelled transition systems.

ghost use Rattle.std.specs.Prelude.{◌≡◌, ◌<◌, ◌≤◌, length, map};
ghost use Rattle.systems.specs.System.{IsSystem};
ghost use Rattle.systems.specs.Numbered.{label_at, arrow_of, arrows_from, IsInside, AreAscending, AreUsed};

use crate::label::{Label, LabelView};
use crate::limits::MOST_TRANSITIONS;
use std::marker::Model;

/// A transition, whose label is given by number.
#[derive(Clone, Copy, Debug, PartialEq, Eq, PartialOrd, Ord)]
pub struct Transition {
    pub source: u32,
    pub label: u32,
    pub target: u32,
}

/// A labelled transition system. States are the numbers from 0 on; labels are numbered in the order of their bytes.
#[derive(Drop)]
pub struct Lts {
    states: u32,
    initial: u32,
    labels: Vec<Label>,
    transitions: Vec<Transition>,
    starts: Vec<u32>,
}

impl Model for Lts {
    ghost use Rattle.systems.specs.Numbered.{Numbered};

    ghost Value = { Numbered };

    ghost use Rattle.systems.specs.View.{numbered, IsStored};

    ghost view = { numbered };

    ghost invariant = { IsStored };
}

impl Lts {
    ghost use Rattle.systems.specs.View.{numbered, IsStored};

    /// The system of these parts.
    pub fn new(
        states: u32,
        initial: u32,
        labels: Vec<Label>,
        transitions: Vec<Transition>,
        starts: Vec<u32>,
    ) -> Lts
        requires { IsStored (record { states = states; initial = initial; labels = labels; transitions = transitions; starts = starts }) }
        ensures { result ≡ numbered (record { states = states; initial = initial; labels = labels; transitions = transitions; starts = starts }) }
    {
        Lts {
            states,
            initial,
            labels,
            transitions,
            starts,
        }
    }

    /// How many states there are.
    pub fn states(&self) -> u32
        ensures count { result ≡ self.now.system.states }
        ensures known { IsSystem self.now.system }
    {
        self.states
    }

    /// The state in which the system begins.
    pub fn initial(&self) -> u32
        ensures value { result ≡ self.now.system.initial }
        ensures inside { result < self.now.system.states }
    {
        self.initial
    }

    /// How many distinct transitions there are.
    pub fn transitions(&self) -> usize
        ensures { result ≡ length self.now.system.arrows }
    {
        self.transitions.len()
    }

    /// How many labels there are: each one that a transition has, once.
    pub fn labels(&self) -> usize
        ensures count { result ≡ length self.now.labels }
        ensures ascending { AreAscending self.now.labels }
        ensures used { AreUsed self.now }
    {
        self.labels.len()
    }

    /// All transitions, ascending by source, label and target.
    pub fn all(&self) -> &[Transition]
        ensures arrows { map (arrow_of self.now.labels) result.now ≡ self.now.system.arrows }
        ensures inside { IsInside self.now result.now }
        ensures few { length result.now ≤ MOST_TRANSITIONS }
    {
        &self.transitions
    }

    /// The transitions from a state, each once, ascending by label and target.
    pub fn from(&self, state: u32) -> &[Transition]
        requires { state < self.now.system.states }
        ensures arrows { map (arrow_of self.now.labels) result.now ≡ arrows_from self.now.system state }
        ensures inside { IsInside self.now result.now }
    {
        let start = self.starts[state as usize] as usize;
        let end = self.starts[state as usize + 1] as usize;
        &self.transitions[start..end]
    }

    /// The label of this number.
    pub fn label(&self, number: u32) -> LabelView<'_>
        requires { number < length self.now.labels }
        ensures { result.bytes.now ≡ label_at self.now.labels number }
    {
        self.labels[number as usize].view()
    }
}
