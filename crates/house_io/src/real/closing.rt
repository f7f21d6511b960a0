//! How a connection is closed, so that the reply that was sent on it last arrives.
use std::io::Read;
use std::net::{OpenStream, Shutdown};
use std::time::Duration;

/// How many bytes of what a peer still sends are read at once.
const PIECE: usize = 4_096;

/// How many pieces are read at most.
const PIECES: u32 = 16;

/// How many milliseconds a peer that still sends may be silent.
const SILENCE: u64 = 250;

/// Closes a connection. TCP resets one that is closed while bytes that came on it are unread (RFC 1122, section 4.2.2.13), and the peer may
/// then lose the reply that was sent last. So where there are such bytes the peer is told first that no more comes, and what it still sends is
/// thrown away, until it closes its end, is silent for too long, or has sent too much (RFC 9112, section 9.6).
pub(super) fn close<S: Read + OpenStream + Drop>(stream: S) {
    let mut stream = stream;
    if has_unread(&stream) {
        throw_away(&mut stream);
    }
}

/// Whether bytes have come that were not read. It does not wait for any.
fn has_unread<S: OpenStream>(stream: &S) -> bool {
    if stream.set_nonblocking(true).is_err() {
        return false;
    }
    let mut byte = [0];
    match stream.peek(&mut byte) {
        Ok(count) => count > 0,
        Err(_) => false,
    }
}

/// Says that no more comes, and throws away what is unread and what still comes.
fn throw_away<S: Read + OpenStream>(stream: &mut S) {
    let silence = Duration::from_millis(SILENCE);
    let is_shut = stream.shutdown(Shutdown::Write).is_ok();
    let may_wait = stream.set_nonblocking(false).is_ok();
    // Else a peer that sends nothing more, and does not close its end, would hold its door for ever.
    if !is_shut || !may_wait || stream.set_read_timeout(Some(silence)).is_err() {
        return;
    }
    let mut piece = [0; PIECE];
    for _piece in 0..PIECES {
        match stream.read(&mut piece) {
            Ok(count) if count > 0 => {}
            _ => return,
        }
    }
}
