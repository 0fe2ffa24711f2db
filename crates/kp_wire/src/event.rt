//! Events, as they are sent to the connection whose watch fires.

ghost use Rattle.std.specs.Prelude.{◌≡◌, OnOk};
ghost use Rattle.kp_jute.specs.Form.{Gives, Wrote};
ghost use Rattle.kp_wire.specs.Events.{events, event_kinds, kind_of, kind_number, event_at, kind_in, path_in};

use crate::field::{read_some_text, write_some_text};
use crate::multi::fixed_int;
use kp_jute::{JuteFail, NoMemory, Reader, Writer};
use kp_model::{Event, Text};
use std::alloc::Global;

/// The state that each event names: connected.
const STATE: i32 = 3;

/// What happened at the path.
#[derive(Clone, Copy)]
enum EventKind {
    Created,
    Deleted,
    DataChanged,
    ChildrenChanged,
}

fn kind_from(number: i32) -> Option<EventKind>
    ensures { result ≡ kind_of number }
{
    match number {
        1 => Some(EventKind::Created),
        2 => Some(EventKind::Deleted),
        3 => Some(EventKind::DataChanged),
        4 => Some(EventKind::ChildrenChanged),
        _ => None,
    }
}

fn read_kind(reader: &mut Reader<'_>) -> Result<EventKind, JuteFail>
    ensures { Gives (λ x. x) result reader.new (event_kinds.read reader.old) }
{
    let at = reader.place();
    match kind_from(reader.int()?) {
        None => Err(JuteFail::BadByte { at }),
        Some(kind) => Ok(kind),
    }
}

fn event_from(kind: EventKind, path: Text) -> Event
    ensures { result ≡ event_at kind path }
{
    match kind {
        EventKind::Created => Event::Created(path),
        EventKind::Deleted => Event::Deleted(path),
        EventKind::DataChanged => Event::DataChanged(path),
        EventKind::ChildrenChanged => Event::ChildrenChanged(path),
    }
}

/// Reads the body of an event.
pub(crate) fn read_event(alloc: Global, reader: &mut Reader<'_>) -> Result<Event, JuteFail>
    ensures { Gives (λ x. x) result reader.new (events.read reader.old) }
{
    let kind = read_kind(reader)?;
    fixed_int(reader, STATE)?;
    let path = read_some_text(alloc, reader)?;
    Ok(event_from(kind, path))
}

fn parts_of(event: &Event) -> (i32, &Text)
    ensures number { result.0 ≡ kind_number (kind_in event.now) }
    ensures path { result.1.now ≡ path_in event.now }
{
    match event {
        Event::Created(path) => (1, path),
        Event::Deleted(path) => (2, path),
        Event::DataChanged(path) => (3, path),
        Event::ChildrenChanged(path) => (4, path),
    }
}

/// Writes the body of an event.
pub(crate) fn write_event_body(writer: &mut Writer, event: &Event) -> Result<(), NoMemory>
    ensures { OnOk result (Wrote events event.now writer.old writer.new) }
{
    let (number, path) = parts_of(event);
    writer.int(number)?;
    writer.int(STATE)?;
    write_some_text(writer, path)?;
    Ok(())
}
