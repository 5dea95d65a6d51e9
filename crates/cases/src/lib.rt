// What the programs share: reading into buffers that they lend, the parts of recorded cases, and bytes as they are shown.
#![tactic(auto)]

ghost use Rattle.std.specs.Prelude.{◌≡◌, ◌<◌, ◌≤◌, ◌^◌, length, take, IfOk, IfSome, Some};
ghost use Rattle.std.specs.Int.{w16, w32, to_be_bytes};
ghost use Rattle.std.specs.Io.KnownBytes.{Consumes, IsAtEnd};
ghost use Rattle.cases.specs.Shown.{hexadecimal};

use std::io::Read;
use std::{fmt, io};

// Reads until the input ends or the buffer is full, and answers how many bytes came to the buffer's start. Where a read fails, so does this.
pub fn filled<R: Read>(input: &mut R, buffer: &mut [u8]) -> io::Result<usize>
    ensures bound { IfOk result (λ n. n ≤ length buffer.new) }
    ensures bytes { IfOk result (λ n. Consumes (R.remaining input.old) (R.remaining input.new) (take n buffer.new)) }
    ensures end { IfOk result (λ n. n < length buffer.new → IsAtEnd (R.remaining input.new)) }
{
    // no method of the library does this without a heap: read_to_end fills a Vec, and of read_exact an end too early has no count
    let mut done = 0;
    while done < buffer.len() {
        match input.read(&mut buffer[done..])? {
            0 => break,
            n => done += n,
        }
    }
    Ok(done)
}

// The next N bytes, where the input has as many.
fn next<const N: usize, R: Read>(input: &mut R) -> Option<[u8; N]>
    ensures { IfSome result (Consumes (R.remaining input.old) (R.remaining input.new)) }
{
    let mut bytes = [0u8; N];
    input.read_exact(&mut bytes).ok()?;
    Some(bytes)
}

// A length of two bytes, high byte first. It and the next are two functions because from_be_bytes is a method of each type of number, and of no trait.
pub fn two<R: Read>(input: &mut R) -> Option<usize>
    ensures bound { IfSome result (λ n. n < 2 ^ 16) }
    ensures bytes { IfSome result (λ n. Consumes (R.remaining input.old) (R.remaining input.new) (to_be_bytes w16 n)) }
{
    Some(usize::from(u16::from_be_bytes(next(input)?)))
}

// A length of four bytes, high byte first. By `as`: std has no `From` of u32 for usize.
pub fn four<R: Read>(input: &mut R) -> Option<usize>
    ensures bound { IfSome result (λ n. n < 2 ^ 32) }
    ensures bytes { IfSome result (λ n. Consumes (R.remaining input.old) (R.remaining input.new) (to_be_bytes w32 n)) }
{
    Some(u32::from_be_bytes(next(input)?) as usize)
}

// The next bytes, as many as a size says, at the start of the buffer: where it has room for them and the input has them.
pub fn block<'a, R: Read>(size: usize, input: &mut R, buffer: &'a mut [u8]) -> Option<&'a mut [u8]>
    ensures room { IfSome result (λ bytes. size ≤ length buffer.old) }
    ensures size { IfSome result (λ bytes. length bytes.now ≡ size) }
    ensures bytes { IfSome result (λ bytes. Consumes (R.remaining input.old) (R.remaining input.new) bytes.now) }
{
    let bytes = buffer.get_mut(..size)?;
    input.read_exact(bytes).ok()?;
    Some(bytes)
}

// Bytes, shown in hexadecimal, or as a dash where there is none.
#[derive(Clone, Copy)]
pub struct Hex<'a>(pub &'a [u8]);

impl fmt::Display for Hex<'_> {
    ghost output = { λ h. Some (hexadecimal h.0.now) };

    fn fmt<W: fmt::Write>(&self, f: &mut fmt::Formatter<W>) -> fmt::Result {
        if self.0.is_empty() {
            return f.write_str("-");
        }
        for &byte in self.0 {
            write!(f, "{byte:02x}")?;
        }
        Ok(())
    }
}
