// The listing: document 01, "The listing", as request a amends it. It reads, and writes what `pages` gives; with no input it lists the worked pairs.
// No contract can say what reaches standard output. So all but `main` is written over any reader and any writer, and says what it writes where the
// two know their bytes.
#![tactic(auto)]

ghost use Rattle.std.specs.Prelude.{◌≡◌, ◌≤◌, length, take, OnOk, IfOk, IfSome};
ghost use Rattle.std.specs.Io.KnownBytes.{Appends};
ghost use Rattle.listings.specs.Pages.{place_text};
ghost use Rattle.listing.specs.Printed.{call_in, places_text, Prints, PrintsHead, PrintsEach, PrintsInput, PrintsWorked};

use calls::Call;
use std::io;
use std::io::{Read, Write};
use worked::{A_BOUNDS, A_READER, A_WRITER, C_BOUNDS, C_READER, C_WRITER, REGISTERED};

// Builds into the lent bytes, and prints the first line or the refusal.
fn list_head<W: Write>(out: &mut W, call: &Call, kept: &mut [u8]) -> io::Result<()>
    ensures { OnOk result (PrintsHead call.now kept.old kept.new
        (W.contents out.old) (W.contents out.new)) }
{
    let mut line = [0u8; 512];
    let n = pages::head(&mut line, call, kept);
    out.write_all(&line[..n])
}

fn list_place<W: Write>(out: &mut W, call: &Call, kept: &[u8], p: usize) -> io::Result<()>
    ensures { OnOk result (Appends (W.contents out.old) (W.contents out.new)
        (place_text call.now kept.now p)) }
{
    let mut line = [0u8; 512];
    let n = pages::place_line(&mut line, call, kept, p);
    out.write_all(&line[..n])
}

// No place that is not kept has a line, so all bytes of a refused pair, and those past N, print nothing.
fn list_places<W: Write>(out: &mut W, call: &Call, kept: &[u8]) -> io::Result<()>
    ensures { OnOk result (Appends (W.contents out.old) (W.contents out.new)
        (places_text call.now kept.now (length kept.now))) }
{
    for p in 0..kept.len() {
        list_place(out, call, kept, p)?;
    }
    Ok(())
}

fn list<W: Write>(out: &mut W, call: &Call) -> io::Result<()>
    ensures { OnOk result (Prints call.now
        (W.contents out.old) (W.contents out.new)) }
{
    let mut kept = [0u8; 4096];
    list_head(out, call, &mut kept)?;
    list_places(out, call, &kept)
}

fn list_input<W: Write>(out: &mut W, input: &[u8]) -> io::Result<()>
    ensures { OnOk result (Prints (call_in input.now) (W.contents out.old) (W.contents out.new)) }
{
    let cut = lines::cut_input(input);
    let call = Call {
        writer: &input[..cut.writer],
        reader: &input[cut.writer..cut.reader],
        bound: cut.bound,
        rule: cut.rule,
    };
    list(out, &call)
}

fn list_at<W: Write>(out: &mut W, writer: &[u8], reader: &[u8], bounds: &[u64]) -> io::Result<()>
    ensures { OnOk result (PrintsEach writer.now reader.now REGISTERED bounds.now
        (W.contents out.old) (W.contents out.new)) }
{
    for &bound in bounds {
        let call = Call {
            writer,
            reader,
            bound,
            rule: REGISTERED,
        };
        list(out, &call)?;
    }
    Ok(())
}

// "With no input the pairs are listed under rule 0" (request a).
fn list_worked<W: Write>(out: &mut W) -> io::Result<()>
    ensures { OnOk result (PrintsWorked (W.contents out.old) (W.contents out.new)) }
{
    list_at(out, &A_WRITER, &A_READER, &A_BOUNDS)?;
    list_at(out, &C_WRITER, &C_READER, &C_BOUNDS)
}

// Reads until the bytes are full or the input ends; the answer is how many were read.
fn read_full<R: Read>(input: &mut R, bytes: &mut [u8]) -> io::Result<usize>
    ensures within { IfOk result (λ n. n ≤ length bytes.new) }
    ensures first { IfOk result (λ n. IfSome (R.remaining input.old) (λ all. take n bytes.new ≡ take (length bytes.old) all)) }
{
    let mut done = 0;
    while done < bytes.len() {
        let n = input.read(&mut bytes[done..])?;
        if n == 0 {
            break;
        }
        done += n;
    }
    Ok(done)
}

// The program, on any input and output.
fn list_all<R: Read, W: Write>(input: &mut R, out: &mut W) -> io::Result<()>
    ensures { OnOk result (IfSome (R.remaining input.old) (λ all. PrintsInput all (W.contents out.old) (W.contents out.new))) }
{
    let mut bytes = [0u8; 1024];
    let n = read_full(input, &mut bytes)?;
    if n == 0 {
        return list_worked(out);
    }
    list_input(out, &bytes[..n])
}

fn main(rt: HostRuntime) -> io::Result<()> {
    list_all(&mut rt.stdin(), &mut rt.stdout())
}
