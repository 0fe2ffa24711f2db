use kp_io::{
    Clock, Draw, FaultyStream, Gate, MemoryClock, MemoryDraw, MemoryStream, OpenGate, Stream, Took,
};
use kp_links::Links;
use std::alloc::{AllocError, Global};
use std::test::Fail;

#[test]
fn three_messages_come_in_order(rt: HostRuntime) -> Result<(), Fail> {
    let (link, mut one) = Links::new(rt.alloc())?;
    let mut two = link.split(&mut one);
    for message in 0..3u64 {
        assert!(rt; link.send(&rt, &mut one, message).is_ok());
    }
    for message in 0..3u64 {
        assert!(rt; link.take(&rt, &mut two) == Some(message));
    }
    assert!(rt; link.take(&rt, &mut two).is_none() && one.refused() == 0);
    Ok(())
}

#[test]
fn the_1025th_message_is_refused(rt: HostRuntime) -> Result<(), Fail> {
    let (link, mut seat) = Links::new(rt.alloc())?;
    for message in 0..1024u64 {
        assert!(rt; link.send(&rt, &mut seat, message).is_ok());
    }
    assert!(rt; link.send(&rt, &mut seat, 7).is_err() && seat.refused() == 1);
    assert!(rt; link.take(&rt, &mut seat) == Some(0));
    Ok(())
}

// What each of so many calls of a stream gave: 3 for bytes with the byte 65 first, 2 for other bytes, 1 for the end, 0 for nothing
// yet, and 9 for a fault.
fn taken<S: Stream>(alloc: Global, stream: &mut S, calls: u64) -> Result<Vec<u8>, AllocError> {
    let mut room = [0u8; 4];
    let mut seen = Vec::new(alloc);
    for _ in 0..calls {
        let what = match stream.take(&mut room) {
            Ok(Took::Bytes(_)) if room[0] == 65 => 3,
            Ok(Took::Bytes(_)) => 2,
            Ok(Took::End) => 1,
            Ok(Took::Later) => 0,
            Err(_) => 9,
        };
        seen.push(what)?;
    }
    Ok(seen)
}

#[test]
fn streams_in_memory_answer_as_they_are_told(rt: HostRuntime) -> Result<(), Fail> {
    let alloc = rt.alloc();
    let bytes = Vec::from_slice(alloc, b"ABC".as_slice())?;
    let mut plain = MemoryStream::new(alloc, bytes, 2, Vec::from_slice(alloc, [2u64].as_slice())?);
    assert!(rt; taken(alloc, &mut plain, 4)?.as_slice() == [3u8, 0, 2, 1].as_slice());
    let bytes = Vec::from_slice(alloc, b"ABC".as_slice())?;
    let failing = Vec::from_slice(alloc, [3u64].as_slice())?;
    let mut faulty = FaultyStream::new(
        alloc,
        bytes,
        2,
        Vec::from_slice(alloc, [1u64].as_slice())?,
        failing,
    );
    assert!(rt; taken(alloc, &mut faulty, 5)?.as_slice() == [0u8, 3, 9, 2, 1].as_slice());
    Ok(())
}

#[test]
fn clocks_draws_and_gates_in_memory(rt: HostRuntime) -> Result<(), Fail> {
    let mut draw = MemoryDraw::new([5; 16]);
    OpenGate.pass(&rt, 1, 0);
    assert!(rt; MemoryClock::new(7).now() == 7 && draw.draw() == [5; 16]);
    Ok(())
}
