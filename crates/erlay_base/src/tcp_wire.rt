//! A wire over a connection by TCP.

ghost use Rattle.std.specs.Prelude.{false, ◌≡◌};

use crate::Wire;
use crate::calls::{fault, is_over_after};
use crate::std_streams::{read_retrying, write_retrying};
use base_types::Failed;
use std::marker::Model;
use std::net::{Net, OpenListener, TcpListener, TcpStream};

/// A wire over a connection by TCP. It tells no link. An address is an IP address or a host's name, a
/// colon and a port. A read or write that a signal interrupts is tried again, a thousand times in all;
/// any other error, the last interruption, and a write that takes no byte of a piece that isn't empty
/// is a fault. A call may wait for the other program without end, but a receive into an empty buffer
/// doesn't ask it for bytes.
#[derive(Drop)]
pub struct TcpWire<R: Net> {
    net: R,
    listener: Option<R::Listener>,
    stream: Option<R::Stream>,
    is_over: bool,
    faults: u64,
}

impl<R: Net> Model for TcpWire<R> {
    ghost use Rattle.std.specs.Prelude.{is_some};
    ghost use Rattle.erlay_base.specs.LinkFakes.{Connection};

    ghost Value = { Connection };

    ghost view = { λ w. record { is_linked = is_some w.stream; is_listening = is_some w.listener; is_over = w.is_over; faults = w.faults } };
}

impl<R: Net> TcpWire<R> {
    /// A wire with no link, over the network that `net` gives.
    pub fn new(net: R) -> Self
        ensures linked { result.is_linked ≡ false }
        ensures listening { result.is_listening ≡ false }
        ensures over { result.is_over ≡ false }
        ensures faults { result.faults ≡ 0 }
    {
        TcpWire {
            net,
            listener: None,
            stream: None,
            is_over: false,
            faults: 0,
        }
    }
}

impl<R: Net> Wire for TcpWire<R> {
    ghost use Rattle.std.specs.Prelude.{None, refl};
    ghost use Rattle.erlay_base.specs.LinkFakes.{has_ended_input};

    ghost link = { λ _. None };

    ghost is_linked = { λ w. w.is_linked };

    ghost is_listening = { λ w. w.is_listening };

    ghost has_ended = { λ w. has_ended_input w.is_linked w.is_over };

    ghost faults = { λ w. w.faults };

    ghost told_end = { λ w. tt };

    ghost unlinked = { λ w e. rw e refl };

    fn connect(&mut self, address: &str) -> Result<(), Failed> {
        match TcpStream::connect(&self.net, address) {
            Ok(stream) => {
                self.stream = Some(stream);
                self.is_over = false;
                Ok(())
            }
            Err(_) => Err(fault(&mut self.faults)),
        }
    }

    fn listen(&mut self, address: &str) -> Result<(), Failed> {
        match TcpListener::bind(&self.net, address) {
            Ok(listener) => {
                self.listener = Some(listener);
                Ok(())
            }
            Err(_) => Err(fault(&mut self.faults)),
        }
    }

    fn accept(&mut self) -> Result<(), Failed> {
        let Some(listener) = &self.listener else {
            unreachable!()
        };
        match listener.accept() {
            Ok((stream, _)) => {
                self.stream = Some(stream);
                self.is_over = false;
                Ok(())
            }
            Err(_) => Err(fault(&mut self.faults)),
        }
    }

    fn receive(&mut self, buf: &mut [u8]) -> Result<usize, Failed> {
        let Some(stream) = &mut self.stream else {
            unreachable!()
        };
        if buf.is_empty() {
            return Ok(0);
        }
        match read_retrying(stream, buf) {
            Ok(count) => {
                self.is_over = is_over_after(self.is_over, count, buf.len());
                Ok(count)
            }
            Err(Failed) => Err(fault(&mut self.faults)),
        }
    }

    fn send(&mut self, piece: &[u8]) -> Result<usize, Failed> {
        let Some(stream) = &mut self.stream else {
            unreachable!()
        };
        match write_retrying(stream, piece) {
            Ok(count) if count > 0 || piece.is_empty() => Ok(count),
            _ => Err(fault(&mut self.faults)),
        }
    }
}
