// Runs the marked examples M1 to M9 of document 01 through the proved functions, a line each. What
// it must write is in the file stdout.
#![tactic(auto)]

use element::Header;
use std::io;

fn say(rt: &impl Print, text: &str) -> io::Result<()> {
    print!(rt; "{text}")
}

// The seconds of a time, or that it is none.
fn say_time(rt: &impl Print, name: &str, text: &[u8]) -> io::Result<()> {
    say(rt, name)?;
    match calendar::read_time(text) {
        Some(seconds) => print!(rt; "{seconds}")?,
        None => say(rt, "no time")?,
    }
    say(rt, "\n")
}

// The octets of a length, as a header of tag 30 hex has them.
fn say_length(rt: &impl Print, name: &str, len: usize) -> io::Result<()> {
    say(rt, name)?;
    let mut out = [0u8; 4];
    match element::put_header(&mut out, 0, 0x30, len) {
        Ok(end) => {
            for octet in out.iter().take(end).skip(1) {
                print!(rt; "{octet:02x}")?;
            }
        }
        Err(element::Unformed::Short) => say(rt, "no room")?,
        Err(element::Unformed::NoTag) => say(rt, "no tag")?,
    }
    say(rt, "\n")
}

// What the header of a part says.
fn say_header(rt: &impl Print, name: &str, part: &[u8]) -> io::Result<()> {
    say(rt, name)?;
    match element::read_header(part) {
        Ok(Header { tag, start, len }) => {
            print!(rt; "{tag:02x}")?;
            say(rt, " content at ")?;
            print!(rt; "{start}")?;
            say(rt, ", size ")?;
            print!(rt; "{len}")?;
        }
        Err(misfit) => {
            say(rt, "refused at ")?;
            print!(rt; "{}", misfit.place)?;
        }
    }
    say(rt, "\n")
}

// The number of a serial, or that it is refused.
fn say_serial(rt: &impl Print, name: &str, serial: &[u8]) -> io::Result<()> {
    say(rt, name)?;
    if content::serial_fits(serial) {
        match octets::number_at(serial, 0, serial.len()) {
            Some(number) => print!(rt; "{number}")?,
            None => say(rt, "more than eight octets")?,
        }
    } else {
        say(rt, "refused")?;
    }
    say(rt, "\n")
}

fn main(rt: HostRuntime) -> io::Result<()> {
    say_time(&rt, "M1 20050501010000Z is ", b"20050501010000Z")?;
    say_time(&rt, "M2 20051107235244Z is ", b"20051107235244Z")?;
    say_time(&rt, "M3 20000229000000Z is ", b"20000229000000Z")?;
    say_time(&rt, "M4 21000229000000Z is ", b"21000229000000Z")?;
    say_time(&rt, "M5 99991231235959Z is ", b"99991231235959Z")?;
    say_time(&rt, "M6 20050501010060Z is ", b"20050501010060Z")?;
    say_length(&rt, "M7 length 127 is ", 127)?;
    say_length(&rt, "M7 length 128 is ", 128)?;
    say_length(&rt, "M7 length 256 is ", 256)?;
    say_header(
        &rt,
        "M8 30 81 05 .. is ",
        b"\x30\x81\x05\x01\x02\x03\x04\x05",
    )?;
    say_serial(&rt, "M9 serial 00 80 is ", b"\x00\x80")?;
    say_serial(&rt, "M9 serial 00 7F is ", b"\x00\x7f")
}
