// volume-list: reads a volume from standard input and prints its listing. Document 01, "Campsite examples", last paragraphs.
// It is proved that what `write_listing` gets is the listing of the bytes that were read, for all bytes. No contract can say what a
// call of the system reads or writes, so that the rest is tested (tests/listing): that these bytes are all of standard input, up to one
// more than a listing takes, and that the text is written whole. A read or a write that fails ends the program with its error.
#![tactic(auto)]

ghost use Rattle.std.specs.Prelude.{◌≡◌};
ghost use Rattle.std.specs.Io.{ReadsAtMost};
ghost use Rattle.model.specs.Listing.{listing};

use std::io;
use std::io::{Read, Write};

// One byte more than the longest volume that is listed: where the input has it, the listing is "refused 2".
const INPUT_BYTES: usize = 65537;

// Reads until the buffer is full or the input ends, and answers how many bytes stand at the start of the buffer.
// Example: of an input of 8,192 bytes and a buffer of 65,537 it answers 8192.
fn read_full<R: Read>(input: &mut R, buffer: &mut [u8]) -> io::Result<usize>
    ensures { ReadsAtMost result buffer.new }
{
    let mut done = 0;
    while done < buffer.len() {
        let n = input.read(&mut buffer[done..])?;
        if n == 0 {
            break;
        }
        done += n;
    }
    Ok(done)
}

// Writes the text, which is the listing of the bytes v, to standard output. Answers nothing.
// Example: of no bytes and the text "refused 2" and a newline it writes that text.
fn write_listing<P: Print>(rt: &P, v: &[u8], text: &[u8]) -> io::Result<()>
    requires { text.now ≡ listing v.now }
{
    io::writer(rt).write_all(text)
}

// Reads standard input and prints the listing of what it read.
// Example: of the volume of case C it prints "files 1 free 10" and "1 514 A1", each with a newline.
fn main(rt: HostRuntime) -> io::Result<()> {
    let mut input = [0u8; INPUT_BYTES];
    let n = read_full(&mut rt.stdin(), &mut input)?;
    let mut text = [0u8; listing::TEXT_BYTES];
    let count = listing::lay_listing(&input[..n], &mut text);
    write_listing(&rt, &input[..n], &text[..count])
}
