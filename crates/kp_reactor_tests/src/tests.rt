use crate::{Desk, Manner};
use kp_io::{Stream, Took};
use kp_outlet::ReadySink;
use kp_reactor::{Arrival, Line, Reactor, halves};
use mio::Waker;
use mio::net::TcpListener;
use std::alloc::Global;
use std::io::{self, Read, Write};
use std::net::{Ipv4Addr, SocketAddr, TcpStream};
use std::test::Fail;
use std::time::{Duration, Instant};

// A server on this machine, what wakes it, and where it listens.
fn open(rt: &HostRuntime, manner: Manner) -> Result<(Desk, Waker, SocketAddr), Fail> {
    let listener = TcpListener::bind(rt, SocketAddr::from((Ipv4Addr::LOCALHOST, 0)))?;
    let address = listener.local_addr()?;
    match Reactor::new(rt, rt.alloc(), listener) {
        Ok((reactor, waker)) => Ok((Desk::new(rt.alloc(), reactor, manner), waker, address)),
        Err(_) => Err(Fail::new("no reactor")),
    }
}

// Somebody who comes, and waits at most ten seconds for an answer.
fn come(rt: &HostRuntime, address: SocketAddr) -> io::Result<TcpStream> {
    let client = TcpStream::connect(rt, address)?;
    client.set_read_timeout(Some(Duration::from_secs(10)))?;
    Ok(client)
}

#[test]
fn a_piece_is_said_back(rt: HostRuntime) -> Result<(), Fail> {
    let (mut desk, _waker, address) = open(&rt, Manner::Echo)?;
    let mut client = come(&rt, address)?;
    client.write_all(b"hello")?;
    desk.settle(20);
    let mut answer = [0u8; 5];
    client.read_exact(&mut answer)?;
    assert!(rt; answer == *b"hello" && desk.lines() == 1);
    Ok(())
}

// What is longer than the server takes at a time is taken in several turns, though nothing more comes.
#[test]
fn a_long_piece_is_said_back(rt: HostRuntime) -> Result<(), Fail> {
    let (mut desk, _waker, address) = open(&rt, Manner::Echo)?;
    let mut client = come(&rt, address)?;
    client.write_all(&[7u8; 1000])?;
    desk.settle(20);
    let mut answer = [0u8; 1000];
    client.read_exact(&mut answer)?;
    assert!(rt; answer == [7u8; 1000]);
    Ok(())
}

#[test]
fn one_that_ends_is_let_go(rt: HostRuntime) -> Result<(), Fail> {
    let (mut desk, _waker, address) = open(&rt, Manner::Echo)?;
    let client = come(&rt, address)?;
    let mut other = come(&rt, address)?;
    desk.settle(20);
    assert!(rt; desk.lines() == 2);
    drop(client);
    desk.settle(20);
    assert!(rt; desk.lines() == 1);
    other.write_all(b"still")?;
    desk.settle(20);
    let mut answer = [0u8; 5];
    other.read_exact(&mut answer)?;
    assert!(rt; answer == *b"still" && desk.lines() == 1);
    Ok(())
}

#[test]
fn a_waker_ends_a_wait(rt: HostRuntime) -> Result<(), Fail> {
    let (mut desk, waker, _address) = open(&rt, Manner::Echo)?;
    desk.settle(1);
    let start = Instant::now(&rt)?;
    waker.wake()?;
    assert!(rt; desk.turn(20_000) == 0);
    assert!(rt; start.elapsed(&rt)? < Duration::from_secs(10));
    Ok(())
}

#[test]
fn many_are_served(rt: HostRuntime) -> Result<(), Fail> {
    let (mut desk, _waker, address) = open(&rt, Manner::Echo)?;
    let mut clients = Vec::new(rt.alloc());
    for byte in 0..150u8 {
        let mut client = come(&rt, address)?;
        client.write_all(&[byte; 3])?;
        clients.push(client)?;
        if byte % 50 == 49 {
            desk.settle(20);
        }
    }
    assert!(rt; desk.lines() == 150);
    for (byte, mut client) in (0..150u8).zip(clients.iter()) {
        let mut answer = [0u8; 3];
        client.read_exact(&mut answer)?;
        assert!(rt; answer == [byte; 3]);
    }
    drop(clients);
    desk.settle(20);
    assert!(rt; desk.lines() == 0);
    Ok(())
}

// One that reads late gets all that was kept for it, and another is served meanwhile.
#[test]
fn a_late_reader_gets_all(rt: HostRuntime) -> Result<(), Fail> {
    let (mut desk, _waker, address) = open(&rt, Manner::Pour(4_000_000))?;
    let mut late = come(&rt, address)?;
    late.write_all(b"x")?;
    desk.settle(20);
    let mut want = 0u8;
    let mut good = true;
    let mut left = 4_000_000usize;
    let mut room = [0u8; 50_000];
    for _ in 0..4_000_000 {
        if left == 0 {
            break;
        }
        let count = late.read(&mut room)?;
        for at in 0..count.min(room.len()) {
            good = good && room[at] == want;
            want = if want >= 250 { 0 } else { want + 1 };
        }
        left = left.saturating_sub(count);
        desk.turn(0);
    }
    assert!(rt; good && left == 0 && desk.lines() == 1);
    Ok(())
}

// One for which more would be kept than the bound is let go.
#[test]
fn one_that_never_reads_is_let_go(rt: HostRuntime) -> Result<(), Fail> {
    let (mut desk, _waker, address) = open(&rt, Manner::Pour(30_000_000))?;
    let mut deaf = come(&rt, address)?;
    deaf.write_all(b"x")?;
    desk.settle(20);
    assert!(rt; desk.lines() == 0);
    Ok(())
}
