//! Events with the numbers of their lines.

ghost use Rattle.std.specs.Prelude.{◌≡◌, List, [], ◌∷◌, ◌++◌, OnOk};
ghost use Rattle.df_core.specs.declared.engine.Event.{Event};
ghost use Rattle.trace_check.specs.declared.events.Lined.{Lined};

use df_core::Event;
use std::alloc::Global;
use std::marker::Model;
use ws_words::NoMemory;

/// An event, and the number of its line.
#[derive(Clone, Copy, Debug, PartialEq, Eq)]
pub struct Lined {
    pub event: Event,
    pub line: u32,
}

/// A list of events with their lines.
#[derive(Debug, Drop)]
pub struct Trace {
    items: Vec<Lined>,
}

impl Model for Trace {
    ghost Value = { List Lined };

    ghost view = { λ list. list.items.items };
}

impl Trace {
    /// No events.
    pub fn empty(alloc: Global) -> Trace
        ensures { result ≡ [] }
    {
        Trace {
            items: Vec::new(alloc),
        }
    }

    /// Puts an event at the end.
    pub fn push(&mut self, event: Lined) -> Result<(), NoMemory>
        ensures { OnOk result (self.new ≡ self.old ++ event ∷ []) }
    {
        self.items.push(event)?;
        Ok(())
    }

    /// The events as a slice.
    pub fn as_slice(&self) -> &[Lined]
        ensures { result.now ≡ self.now }
    {
        &self.items
    }
}

/// A list of events.
#[derive(Debug, Drop)]
pub struct Events {
    items: Vec<Event>,
}

impl Model for Events {
    ghost Value = { List Event };

    ghost view = { λ list. list.items.items };
}

impl Events {
    /// No events.
    pub fn empty(alloc: Global) -> Events
        ensures { result ≡ [] }
    {
        Events {
            items: Vec::new(alloc),
        }
    }

    /// Puts an event at the end.
    pub fn push(&mut self, event: Event) -> Result<(), NoMemory>
        ensures { OnOk result (self.new ≡ self.old ++ event ∷ []) }
    {
        self.items.push(event)?;
        Ok(())
    }

    /// The events as a slice.
    pub fn as_slice(&self) -> &[Event]
        ensures { result.now ≡ self.now }
    {
        &self.items
    }
}
