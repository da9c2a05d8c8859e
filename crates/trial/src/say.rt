// What is written: text, numbers, octets in hex.
use std::io;

pub(crate) fn say(rt: &impl Print, text: &[u8]) -> io::Result<()> {
    rt.write_all(text)
}

pub(crate) fn say_number(rt: &impl Print, n: u64) -> io::Result<()> {
    print!(rt; "{n}")
}

// A number on a line of its own.
pub(crate) fn say_line(rt: &impl Print, n: u64) -> io::Result<()> {
    println!(rt; "{n}")
}

// A number as so many octets in hex, at most eight.
pub(crate) fn say_octets(rt: &impl Print, n: u64, width: usize) -> io::Result<()> {
    if width > 8 {
        return Ok(());
    }
    let digits = width * 2;
    print!(rt; "{n:0digits$x}")
}

// Octets in hex.
pub(crate) fn say_hex(rt: &impl Print, s: &[u8]) -> io::Result<()> {
    for x in s {
        say_octets(rt, *x as u64, 1)?;
    }
    Ok(())
}

// A refusal: its number and its status.
pub(crate) fn say_refusal(rt: &impl Print, number: u8, status: u8) -> io::Result<()> {
    println!(rt; "{number} {status}")
}

// A misfit: 3, and its place.
pub(crate) fn say_misfit(rt: &impl Print, place: usize) -> io::Result<()> {
    println!(rt; "3 {place}")
}

// A part: 0, where it starts, and how many octets it has.
pub(crate) fn say_part(rt: &impl Print, start: usize, len: usize) -> io::Result<()> {
    println!(rt; "0 {start} {len}")
}

// What a writer answers: the octets that it wrote in hex, or r and the refusal's number.
pub(crate) fn say_output(rt: &impl Print, out: &[u8], output: fields::Output) -> io::Result<()> {
    match output {
        fields::Output::Octets(n) => {
            if n <= out.len() {
                say_hex(rt, &out[..n])?;
                say(rt, b"\n")?;
            }
            Ok(())
        }
        fields::Output::Refused(number) => println!(rt; "r{number}"),
    }
}
