//! Clients in the thread of what they call: what they send lies in the socket before they are served.

use anyhow::Result;
use std::io::{Read, Write};
use std::net::{Shutdown, TcpListener, TcpStream};

/// A connection to a listener, over which a text was sent.
pub fn begun(rt: &HostRuntime, listener: &TcpListener, text: &[u8]) -> Result<TcpStream> {
    let mut caller = TcpStream::connect(rt, listener.local_addr()?)?;
    caller.write_all(text)?;
    Ok(caller)
}

/// The same, and nothing comes after it.
pub fn sent(rt: &HostRuntime, listener: &TcpListener, text: &[u8]) -> Result<TcpStream> {
    let caller = begun(rt, listener, text)?;
    caller.shutdown(Shutdown::Write)?;
    Ok(caller)
}

/// Appends what a caller was answered.
pub fn push_answered(caller: &mut TcpStream, answer: &mut Vec<u8>) -> Result<()> {
    answer.extend_from_slice(b"answered: ")?;
    caller.read_to_end(answer)?;
    Ok(())
}
