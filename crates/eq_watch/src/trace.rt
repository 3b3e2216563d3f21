ghost use Rattle.std.specs.Prelude.{◌≡◌, ◌++◌, [], OnOk};
ghost use Rattle.eq_watch.specs.Watching.{Grew};
ghost use Rattle.eq_watch.specs.Tracing.{trace_with};
ghost use Rattle.eq_watch.specs.Noting.{event_line};

use crate::event::Event;
use crate::text::push_counted;
use crate::watch::Watch;
use eq_base::NoMemory;
use std::alloc::Global;
use std::marker::Model;

/// The watch `trace`, which notes each replacement.
#[derive(Drop)]
pub struct Trace {
    events: Vec<Event>,
}

impl Model for Trace {
    ghost use Rattle.std.specs.Prelude.{List, ℕ, flat_map};

    ghost Value = { List ℕ };

    ghost use Rattle.eq_watch.specs.Tracing.{noted};

    ghost view = { λ t. flat_map noted t.events.items };
}

impl Trace {
    /// A watch that was told of nothing.
    pub fn new(alloc: Global) -> Trace
        ensures { result ≡ [] }
    {
        Trace {
            events: Vec::new(alloc),
        }
    }
}

/// Appends the line of a replacement.
fn write_event(event: &Event, into: &mut Vec<u8>) -> Result<(), NoMemory>
    ensures ok { OnOk result (into.new.items ≡ into.old.items ++ event_line event.now) }
    ensures front { Grew into.old.items into.new.items }
{
    push_counted(into, "", event.number)?;
    push_counted(into, " equation ", event.equation as u64)?;
    push_counted(into, " node ", event.node as u64)?;
    push_counted(into, " made ", event.made as u64)?;
    into.push(b'\n')?;
    Ok(())
}

impl Watch for Trace {
    ghost state = { trace_with };

    fn name_is(&self, name: &str) -> bool {
        name == "trace"
    }

    fn clear(&mut self) {
        self.events.clear();
    }

    fn seen(&mut self, event: Event) -> Result<(), NoMemory> {
        self.events.push(event)?;
        Ok(())
    }

    fn report(&self, into: &mut Vec<u8>) -> Result<(), NoMemory> {
        for event in &self.events {
            write_event(event, into)?;
        }
        Ok(())
    }
}
